// What was found in a line that is not of the grammar, in words.
#![tactic(auto)]

use place_book::Finding;

// What was found, as a sentence.
pub fn words(what: Finding) -> &'static str {
    match what {
        // At the start of a line.
        Finding::ByteOrderMark => {
            "the file begins with a byte order mark, or the line with a letter that is not ASCII; save the book as plain ASCII text"
        }
        Finding::EmptyLine => "the line is empty; a book has a rule on every line",
        Finding::SpaceBefore => {
            "a space stands before the first word; the line begins with 'always' or 'start'"
        }
        Finding::CapitalWord => "'always' and 'start' are written in small letters",
        Finding::Comment => "a book has no comments; every line is a rule",
        Finding::NoWord => "the line must begin with 'always' or 'start'",
        Finding::NoSpace => "a space is expected behind the first word",
        // Bytes that stand nowhere, and the end of a line.
        Finding::CarriageReturn => {
            "the line ends with a carriage return, as Windows editors save files; save the book with line ends of Unix (LF)"
        }
        Finding::Tab => "a tab; only spaces may stand between the parts of a rule",
        Finding::NotAscii => {
            "a character that is not plain ASCII, such as a curved quote, a long dash or a hard space"
        }
        Finding::SpaceBehind => {
            "a space stands at the end of the line; the line end must follow right behind the rule"
        }
        Finding::NoLineEnd => "the last line has no line end; press Enter behind it",
        // Brackets and commas.
        Finding::NoBracket => "'(' is expected: U is written as U 3 (p0, p1)",
        Finding::NotOpen => "')' closes a bracket that was never opened",
        Finding::OnePart => {
            "a comma and a second part are expected before ')': U is written as U 3 (p0, p1)"
        }
        Finding::Comma => "a comma stands only between the two parts of U, as in U 3 (p0, p1)",
        Finding::NotClosed => "the line ends, and a bracket is not closed: ')' is missing",
        // Tokens.
        Finding::Arrow => "there is no '->', '-' or '=' here; 'if p0 then p1' is written !p0 | p1",
        Finding::SmallLetter => "T, F, N, A, E and U are written as capitals",
        Finding::CapitalMark => "a mark is written with a small p, as p0",
        Finding::LongNumber => "a number has at most three digits",
        Finding::Twice => "'&' and '|' are written once",
        Finding::LongMark => {
            "a mark has one or two digits, as p0 or p12, and a number stands only behind N, A, E or U"
        }
        Finding::NoComparison => "<=, <, >= or > is expected behind N, as in N <= 3 p0",
        Finding::NoNumber => "a number is expected behind the comparison, as in N <= 3 p0",
        Finding::NoMark => "'!' stands only right before a mark, as in !p0",
        Finding::NoDigit => "the number of a mark is expected right behind p, as in p0",
        Finding::NoOperator => "'&', '|', ')' or the end of the line is expected here",
        Finding::NoUnit => "expected here: T, F, a mark such as p0 or !p0, N, A, E, U, or '('",
    }
}
