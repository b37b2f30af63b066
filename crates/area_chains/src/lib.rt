// Buckets of numbers in a lent area (specs/Chains.antt): a head for each bucket and a link for each
// number, two bytes each; the caller says where heads and links begin, and what stands in which bucket.
#![tactic(auto)]

ghost use Rattle.std.specs.Prelude.{◌+◌, ◌*◌, ◌<◌, ◌≡◌, length};
ghost use Rattle.area_chains.specs.Chains.{head_in, link_in, added};

// The head of bucket h: the last number of it plus 1, or 0.
pub fn head(area: &[u8], heads: usize, h: usize) -> usize
    requires { heads + 2 * h + 1 < length area.now }
    ensures { result ≡ head_in heads area.now h }
{
    area_bytes::two_bytes(area, heads + 2 * h)
}

// The link of number k: the one before it in its bucket plus 1, or 0.
pub fn link(area: &[u8], links: usize, k: usize) -> usize
    requires { links + 2 * k + 1 < length area.now }
    ensures { result ≡ link_in links area.now k }
{
    area_bytes::two_bytes(area, links + 2 * k)
}

// Puts number k at the head of bucket h.
pub fn add(area: &mut [u8], heads: usize, links: usize, h: usize, k: usize)
    requires h_in_bounds { heads + 2 * h + 1 < length area.old }
    requires k_in_bounds { links + 2 * k + 1 < length area.old }
    ensures { area.new ≡ added heads links area.old h k }
{
    let before = head(area, heads, h);
    area_bytes::put_two_bytes(area, links + 2 * k, before);
    area_bytes::put_two_bytes(area, heads + 2 * h, k + 1);
}
