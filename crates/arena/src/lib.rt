// The arena's calls. Shape and header go in by value, the buffer is lent, and the header comes back beside the answer. The two
// stay apart and are no struct with methods: a call changes and gives back the header alone (document 01: a header by value).
// Every public call takes any header, any bytes and any numbers: its contract is one equation that gives the answer,
// the header and every byte, refusals included. A refusal gives the header back too, so it is a reply and no `Err`: for `?` each
// call would be two functions, the second to put the header back.
#![tactic(auto)]

ghost use Rattle.std.specs.Prelude.{◌≡◌, true, ◌+◌, ◌-◌, ◌≤◌, length, Some, None};
ghost use Rattle.records.specs.Answer.{outcome};
ghost use Rattle.records.specs.Setup.{limit};
ghost use Rattle.records.specs.declared.Policy.TheVariants.{Ordered};
ghost use Rattle.records.specs.declared.Request.TheVariants.{Bytes, Typed, Aligned};
ghost use Rattle.requests.specs.Request.{well_formed, need};
ghost use Rattle.std.specs.List.{AllByRecursion as Each};
ghost use Rattle.words.specs.Word.{word_at, end_mark};
ghost use Rattle.freelist.specs.Segs.{EndsBy, end_of, passed};
ghost use Rattle.freelist.specs.Nodes.{rest};
ghost use Rattle.freelist.specs.Sound.{free};
ghost use Rattle.arena.specs.Take.{taking, past_top, rest_of, serve_from, serve};
ghost use Rattle.arena.specs.Look.{Counted, end_at_top, Serves, Looked, handed_out};
ghost use Rattle.arena.specs.Give.{below_top, giving_back};
ghost use Rattle.arena.specs.Rewind.{discarding, rewinding, setting, setting_minimum, adding_discarded};

use freelist::{Nodes, Spot};
use records::{Answer, Block, Header, Order, Policy, Position, Reply, Request, Segment, Shape};

// Where a request that the top meets ends.
#[inline(always)]
#[tactic(auto, unfolding(crate::specs::Look::end_at_top))]
fn end_at_top(shape: Shape, header: Header, buf: &[u8], request: Request) -> Option<usize>
    ensures { result ≡ end_at_top shape header (length buf.now) request }
{
    if shape.read_only || !records::head_sound(shape, header, buf) {
        return None;
    }
    requests::top_end(shape.cap, header.allocated, request)
}

// A request that the top meets and that ends at `want`. The shape is there for the contract alone: a ghost value in its place
// would be picked in a proof file by every caller.
#[inline(always)]
fn take_top(shape: Shape, header: Header, buf: &mut [u8], request: Request, want: usize) -> Reply
    requires { end_at_top shape header (length buf.old) request ≡ Some want }
    ensures { outcome result buf.new ≡ taking shape header buf.old request }
{
    let top = header.allocated;
    let room = requests::at_top(top, requests::simplify(request));
    words::clear_range(buf, room.from, want);
    let end = want as u32;
    let at = room.at as u32;
    let block = Block {
        memory_offset: top,
        memory_size: end - top,
        usable_offset: at,
        usable_size: end - at,
    };
    Reply {
        answer: Answer::Granted(block),
        header: header.with_top(end),
    }
}

// The free segments of a sound arena, so many. The shape is there for the contract alone: a function that lends a part takes no
// ghost value.
fn free_nodes(shape: Shape, header: Header, buf: &[u8], count: usize) -> Nodes<'_>
    requires { Counted shape header buf.now count }
    ensures { rest result ≡ free shape header buf.now }
{
    Nodes::new(buf, header.first() as usize, count)
}

// The search of a list of `count` nodes for one that serves a need, the first node of an optimistic list, the first with
// room of a pessimistic one: its place, or the room that a refusal reports.
fn search_list(
    shape: Shape,
    header: Header,
    buf: &[u8],
    count: usize,
    order: Order,
    need: usize,
) -> Result<Spot, u32>
    requires { Counted shape header buf.now count }
    ensures { Looked order need (shape.cap - header.allocated) (free shape header buf.now) result }
{
    let mut nodes = free_nodes(shape, header, buf, count);
    let room = records::remaining(shape, header);
    match order {
        Order::Optimistic => {
            let Some(head) = nodes.next() else {
                return Err(room);
            };
            if head.size < need {
                return Err(head.size as u32);
            }
            Ok(Spot {
                prev: words::END_MARK as usize,
                next: head.offset,
                index: 0,
            })
        }
        Order::Pessimistic => {
            let spot = freelist::find_place(nodes, |node| need <= node.size);
            if spot.index < count {
                Ok(spot)
            } else {
                Err(room)
            }
        }
    }
}

// A block of m bytes of memory from p on, where a node stood: what the request needs of the bytes past the node is zeroed.
fn hand_out(header: Header, buf: &mut [u8], p: usize, m: usize, request: Request) -> Reply
    requires formed { (well_formed request ≡ true) × (need request ≤ m) }
    requires room { (p + 8 + m ≤ length buf.old) × (length buf.old ≤ limit) }
    ensures { outcome result buf.new ≡ handed_out header buf.old p m request }
{
    let start = p + words::NODE_SIZE;
    let end = start + requests::need_of(request);
    words::clear_range(buf, start, end);
    let block = requests::list_block(p, m, request);
    Reply {
        answer: Answer::Granted(block),
        header,
    }
}

// A node that left the list serves the request; the rest of it goes back to the `count` nodes that stayed where the segment
// rule accepts it. They are no `Nodes`, which would borrow the buffer that is written here.
fn serve_node(
    header: Header,
    buf: &mut [u8],
    first: usize,
    count: usize,
    order: Order,
    request: Request,
    node: Segment,
) -> Reply
    requires ends { Each (EndsBy (length buf.old)) (passed (word_at buf.old) count first) }
    requires small { first ≤ end_mark }
    requires room { (end_of node ≤ length buf.old) × (length buf.old ≤ limit) }
    requires formed { (well_formed request ≡ true) × (need request ≤ node.size) }
    ensures { outcome result buf.new
        ≡ serve_from header buf.old first (passed (word_at buf.old) count first) order request node (rest_of header node (need request)) }
{
    let need = requests::need_of(request);
    let p = node.offset;
    let end = p + words::NODE_SIZE + need;
    let rest = records::segment_of(
        header.minimum_segment_size,
        end as u32,
        (node.size - need) as u32,
    );
    let Some(segment) = rest else {
        let next = header.with_first(first as u32);
        return hand_out(next, buf, p, node.size, request);
    };
    let head = freelist::insert(buf, first, count, order, segment);
    let next = header.with_first(head as u32).lose(words::NODE_SIZE as u32);
    hand_out(next, buf, p, need, request)
}

// The node at a place leaves the list of `count` nodes and serves the request.
fn take_node(
    shape: Shape,
    header: Header,
    buf: &mut [u8],
    count: usize,
    order: Order,
    request: Request,
    spot: Spot,
) -> Reply
    requires found { Counted shape header buf.old count }
    requires listed { (shape.policy ≡ Ordered order) × (well_formed request ≡ true) }
    requires serves { Serves (free shape header buf.old) (need request) spot }
    ensures { outcome result buf.new ≡ serve header buf.old (free shape header buf.old) order request spot.index }
{
    let size = words::node_at(buf, spot.next).size as usize;
    let first = freelist::remove(buf, header.first() as usize, count, spot);
    let node = Segment {
        offset: spot.next,
        size,
    };
    serve_node(header, buf, first, count - 1, order, request, node)
}

// A request past the top of a sound arena with `count` free segments.
fn past_top(shape: Shape, header: Header, buf: &mut [u8], count: usize, request: Request) -> Reply
    requires found { Counted shape header buf.old count }
    requires formed { well_formed request ≡ true }
    ensures { outcome result buf.new ≡ past_top shape.policy shape header buf.old request }
{
    let Policy::Ordered(order) = shape.policy else {
        let requested = requests::asked_of(header.allocated, request) as u32;
        let available = records::remaining(shape, header);
        return Reply {
            answer: Answer::InsufficientSpace {
                requested,
                available,
            },
            header,
        };
    };
    let need = requests::need_of(request);
    match search_list(shape, header, buf, count, order, need) {
        Ok(spot) => take_node(shape, header, buf, count, order, request, spot),
        Err(available) => Reply {
            answer: Answer::InsufficientSpace {
                requested: need as u32,
                available,
            },
            header,
        },
    }
}

// A request that the top does not meet: it is refused, is for nothing, or is served from the list.
fn take_else(shape: Shape, header: Header, buf: &mut [u8], request: Request) -> Reply
    requires { end_at_top shape header (length buf.old) request ≡ None }
    ensures { outcome result buf.new ≡ taking shape header buf.old request }
{
    if shape.read_only {
        return Reply {
            answer: Answer::ReadOnly,
            header,
        };
    }
    if !requests::well_formed(request) {
        return Reply {
            answer: Answer::BadLayout,
            header,
        };
    }
    if !records::head_sound(shape, header, buf) {
        return Reply {
            answer: Answer::Damaged,
            header,
        };
    }
    let plain = requests::simplify(request);
    if requests::for_nothing(plain) {
        return Reply {
            answer: Answer::Nothing,
            header,
        };
    }
    let Some(count) = freelist::survey(shape, header, buf) else {
        return Reply {
            answer: Answer::Damaged,
            header,
        };
    };
    past_top(shape, header, buf, count, plain)
}

// Any request, as one value. With `end_at_top` and `take_top` it is compiled into each of the three calls after it, so that a
// request that the top meets costs no call.
#[inline(always)]
pub fn take(shape: Shape, header: Header, buf: &mut [u8], request: Request) -> Reply
    ensures { outcome result buf.new ≡ taking shape header buf.old request }
{
    match end_at_top(shape, header, buf, request) {
        Some(want) => take_top(shape, header, buf, request, want),
        None => take_else(shape, header, buf, request),
    }
}

// `size` bytes, zeroed.
pub fn alloc_bytes(shape: Shape, header: Header, buf: &mut [u8], size: u32) -> Reply
    ensures { outcome result buf.new ≡ taking shape header buf.old (Bytes size) }
{
    take(shape, header, buf, Request::Bytes(size))
}

// A value of this size and alignment.
pub fn alloc(shape: Shape, header: Header, buf: &mut [u8], size: u32, align: u32) -> Reply
    ensures { outcome result buf.new ≡ taking shape header buf.old (Typed size align) }
{
    take(shape, header, buf, Request::Typed { size, align })
}

// A value of this size and alignment with `extra` bytes behind it, not zeroed where the top meets it; for size 0 `extra`
// bytes, zeroed.
pub fn alloc_aligned_bytes(
    shape: Shape,
    header: Header,
    buf: &mut [u8],
    size: u32,
    align: u32,
    extra: u32,
) -> Reply
    ensures { outcome result buf.new ≡ taking shape header buf.old (Aligned size align extra) }
{
    let request = Request::Aligned { size, align, extra };
    take(shape, header, buf, request)
}

// A memory range below the top goes back: to the list where the policy has one and the segment rule accepts the range,
// else to the count of discarded bytes.
fn give_below(
    shape: Shape,
    header: Header,
    buf: &mut [u8],
    count: usize,
    offset: u32,
    size: u32,
) -> Reply
    requires found { Counted shape header buf.old count }
    requires ends_below { offset + size ≤ header.allocated }
    ensures { outcome result buf.new ≡ below_top shape.policy shape header buf.old offset size }
{
    let Policy::Ordered(order) = shape.policy else {
        return Reply {
            answer: Answer::GivenBack(true),
            header: header.lose(size),
        };
    };
    let Some(segment) = records::segment_of(header.minimum_segment_size, offset, size) else {
        return Reply {
            answer: Answer::GivenBack(false),
            header: header.lose(size),
        };
    };
    let first = header.first() as usize;
    let head = freelist::insert(buf, first, count, order, segment);
    Reply {
        answer: Answer::GivenBack(true),
        header: header.with_first(head as u32).lose(words::NODE_SIZE as u32),
    }
}

// A memory range goes back: to the top, to the list, or to the count of discarded bytes.
pub fn dealloc(shape: Shape, header: Header, buf: &mut [u8], offset: u32, size: u32) -> Reply
    ensures { outcome result buf.new ≡ giving_back shape header buf.old offset size }
{
    if shape.read_only {
        return Reply {
            answer: Answer::ReadOnly,
            header,
        };
    }
    let Some(count) = freelist::survey(shape, header, buf) else {
        return Reply {
            answer: Answer::Damaged,
            header,
        };
    };
    let start = shape.data_offset;
    let allocated = header.allocated;
    let end = offset as usize + size as usize;
    if offset < start || (allocated as usize) < end {
        return Reply {
            answer: Answer::OutOfBounds { offset, allocated },
            header,
        };
    }
    let nodes = free_nodes(shape, header, buf, count);
    if freelist::any_meets(nodes, offset as usize, end) {
        return Reply {
            answer: Answer::Overlap,
            header,
        };
    }
    if end == allocated as usize {
        return Reply {
            answer: Answer::GivenBack(true),
            header: header.with_top(offset),
        };
    }
    give_below(shape, header, buf, count, offset, size)
}

// The list is emptied and the sum of its data sizes counted as discarded.
pub fn discard_freelist(shape: Shape, header: Header, buf: &[u8]) -> Reply
    ensures { outcome result buf.now ≡ discarding shape header buf.now }
{
    if shape.read_only {
        return Reply {
            answer: Answer::ReadOnly,
            header,
        };
    }
    let Some(count) = freelist::survey(shape, header, buf) else {
        return Reply {
            answer: Answer::Damaged,
            header,
        };
    };
    let nodes = free_nodes(shape, header, buf, count);
    let sum = freelist::sum_sizes(nodes) as u32;
    Reply {
        answer: Answer::Sum(sum),
        header: header.with_first(words::END_MARK).lose(sum),
    }
}

// The top is moved.
pub fn rewind(shape: Shape, header: Header, buf: &[u8], position: Position) -> Reply
    ensures { outcome result buf.now ≡ rewinding shape header buf.now position }
{
    if shape.read_only {
        return Reply {
            answer: Answer::ReadOnly,
            header,
        };
    }
    let Some(count) = freelist::survey(shape, header, buf) else {
        return Reply {
            answer: Answer::Damaged,
            header,
        };
    };
    let nodes = free_nodes(shape, header, buf, count);
    let allocated = header.allocated;
    let top = positions::new_top(shape.data_offset, shape.cap, allocated, position);
    if freelist::any_above(nodes, top as usize) {
        return Reply {
            answer: Answer::CutsFreeList,
            header,
        };
    }
    Reply {
        answer: Answer::Done,
        header: header.with_top(top),
    }
}

// A setter: refused, or done with the header that it sets.
fn set_header(shape: Shape, header: Header, buf: &[u8], next: Header) -> Reply
    ensures { outcome result buf.now ≡ setting shape header buf.now next }
{
    if shape.read_only {
        return Reply {
            answer: Answer::ReadOnly,
            header,
        };
    }
    if !records::head_sound(shape, header, buf) {
        return Reply {
            answer: Answer::Damaged,
            header,
        };
    }
    Reply {
        answer: Answer::Done,
        header: next,
    }
}

// The minimum segment size is set.
pub fn set_minimum_segment_size(shape: Shape, header: Header, buf: &[u8], size: u32) -> Reply
    ensures { outcome result buf.now ≡ setting_minimum shape header buf.now size }
{
    set_header(shape, header, buf, header.with_minimum(size))
}

// A number is added to the count of discarded bytes.
pub fn increase_discarded(shape: Shape, header: Header, buf: &[u8], size: u32) -> Reply
    ensures { outcome result buf.now ≡ adding_discarded shape header buf.now size }
{
    set_header(shape, header, buf, header.lose(size))
}
