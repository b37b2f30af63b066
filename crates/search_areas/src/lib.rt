// The six areas that a search for pairs is lent (docs/WORK-AREAS.md): whether they are long enough, and
// clearing them. Checker and maker begin and end so.
#![tactic(auto)]

ghost use Rattle.std.specs.Prelude.{◌≡◌, [], ◌∷◌};
ghost use Rattle.base.specs.Bytes.{long_enough};
ghost use Rattle.outcome.specs.Areas.{check_areas};
ghost use Rattle.search_areas.specs.Lent.{LentCleared};

// The lengths: the book's nodes and lines, the pairs, their index, their graph, the sets of
// alternatives, and room for candidates and what waits.
const NODES_AREA: usize = 512;

const PAIRS_AREA: usize = 64968;

const INDEX_AREA: usize = 8192;

const GRAPH_AREA: usize = 34000;

const SETS_AREA: usize = 59520;

const ROOM_AREA: usize = 30752;

// The areas are long enough.
pub fn long_enough(
    nodes: &[u8],
    pairs: &[u8],
    index: &[u8],
    graph: &[u8],
    sets: &[u8],
    room: &[u8],
) -> bool
    ensures { result ≡ long_enough check_areas (nodes.now ∷ pairs.now ∷ index.now ∷ graph.now ∷ sets.now ∷ room.now ∷ []) }
{
    if nodes.len() < NODES_AREA {
        return false;
    }
    if pairs.len() < PAIRS_AREA {
        return false;
    }
    if index.len() < INDEX_AREA {
        return false;
    }
    if graph.len() < GRAPH_AREA {
        return false;
    }
    if sets.len() < SETS_AREA {
        return false;
    }
    ROOM_AREA <= room.len()
}

// Every byte of every area is zero.
pub fn clear(
    nodes: &mut [u8],
    pairs: &mut [u8],
    index: &mut [u8],
    graph: &mut [u8],
    sets: &mut [u8],
    room: &mut [u8],
)
    ensures { LentCleared nodes.old pairs.old index.old graph.old sets.old room.old nodes.new pairs.new index.new graph.new sets.new room.new }
{
    area_bytes::clear(nodes);
    area_bytes::clear(pairs);
    area_bytes::clear(index);
    area_bytes::clear(graph);
    area_bytes::clear(sets);
    area_bytes::clear(room);
}
