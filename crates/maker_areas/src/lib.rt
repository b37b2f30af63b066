// The eight areas that the maker is lent (docs/WORK-AREAS.md): whether they are long enough, and clearing
// them. Six of them are a search's.
#![tactic(auto)]

ghost use Rattle.std.specs.Prelude.{◌≡◌, [], ◌∷◌};
ghost use Rattle.base.specs.Bytes.{long_enough};
ghost use Rattle.outcome.specs.Areas.{make_areas};
ghost use Rattle.maker_areas.specs.Lent.{AllCleared};

// The lengths of the two work areas that are the maker's own: the flags of removal, and the classes
// and rows.
const FLAGS_AREA: usize = 37000;

const CLASSES_AREA: usize = 8192;

// The areas are long enough.
pub fn long_enough(
    nodes: &[u8],
    pairs: &[u8],
    index: &[u8],
    graph: &[u8],
    sets: &[u8],
    room: &[u8],
    flags: &[u8],
    classes: &[u8],
) -> bool
    ensures { result ≡ long_enough make_areas (nodes.now ∷ pairs.now ∷ index.now ∷ graph.now ∷ sets.now ∷ room.now ∷ flags.now ∷ classes.now ∷ []) }
{
    if !search_areas::long_enough(nodes, pairs, index, graph, sets, room) {
        return false;
    }
    if flags.len() < FLAGS_AREA {
        return false;
    }
    CLASSES_AREA <= classes.len()
}

// Every byte of every area is zero.
pub fn clear(
    nodes: &mut [u8],
    pairs: &mut [u8],
    index: &mut [u8],
    graph: &mut [u8],
    sets: &mut [u8],
    room: &mut [u8],
    flags: &mut [u8],
    classes: &mut [u8],
)
    ensures { AllCleared nodes.old pairs.old index.old graph.old sets.old room.old flags.old classes.old nodes.new pairs.new index.new graph.new sets.new room.new flags.new classes.new }
{
    search_areas::clear(nodes, pairs, index, graph, sets, room);
    area_bytes::clear(flags);
    area_bytes::clear(classes);
}
