// The three requests on numbers alone: which are well-formed, where they end at the top, what they need of a segment,
// and the block that they have of one. What differs between bytes, typed and aligned requests is here and nowhere else.
// That a request is well-formed is a clause and no type: `take_top` of the crate above knows it by its own contract alone, and
// would test the request once more to make a value of such a type.
#![tactic(auto)]

ghost use Rattle.std.specs.Prelude.{◌≡◌, true, ◌+◌, ◌≤◌};
ghost use Rattle.records.specs.Setup.{limit};
ghost use Rattle.requests.specs.Request.{layout_of, well_formed, good_layout, plain, for_nothing, top_end, asked, need, list_block, Planned, Needed};

use records::{Block, Request};

// What a request asks for, in numbers: all that the three differ in at the top, but for what is zeroed there.
#[derive(Clone, Copy)]
struct Layout {
    size: u32,
    align: u32,
    extra: u32,
}

impl From<Request> for Layout {
    ghost from_gives = { λ r y. y ≡ layout_of r };

    #[tactic(auto, unfolding(crate::specs::Request::layout_of))]
    fn from(request: Request) -> Layout {
        match request {
            Request::Bytes(n) => Layout {
                size: n,
                align: 1,
                extra: 0,
            },
            Request::Typed { size, align } => Layout {
                size,
                align,
                extra: 0,
            },
            Request::Aligned { size, align, extra } => Layout { size, align, extra },
        }
    }
}

// Whether a size and an alignment may be asked for together, the multiple by a mask, which costs no division.
#[tactic(auto, using(crate::proofs::Layouts::layouts))]
fn good_layout(size: u32, align: u32) -> bool
    ensures { result ≡ good_layout size align }
{
    size <= records::LIMIT && words::good_align(align) && size & (align - 1) == 0
}

// Whether a request keeps to the limits.
pub fn well_formed(request: Request) -> bool
    ensures { result ≡ well_formed request }
{
    let layout = Layout::from(request);
    layout.extra <= records::LIMIT && good_layout(layout.size, layout.align)
}

// The request, its alignment dropped where it asks for extra bytes alone.
#[tactic(auto, unfolding(crate::specs::Request::plain))]
pub fn simplify(request: Request) -> Request
    ensures { result ≡ plain request }
{
    match request {
        Request::Aligned { size: 0, extra, .. } => Request::Bytes(extra),
        _ => request,
    }
}

// Whether a simplified request asks for nothing.
#[tactic(auto, unfolding(crate::specs::Request::for_nothing))]
pub fn for_nothing(request: Request) -> bool
    ensures { result ≡ for_nothing request }
{
    matches!(request, Request::Bytes(0) | Request::Typed { size: 0, .. })
}

// A request at the top: where it ends, where its usable part starts, and from where up to the end it is zeroed.
#[derive(Clone, Copy)]
pub struct Room {
    pub want: usize,
    pub at: usize,
    pub from: usize,
}

// What a request takes at the top.
#[tactic(auto, using(crate::proofs::Layouts::laid_formed))]
pub fn at_top(top: u32, request: Request) -> Room
    requires { well_formed request ≡ true }
    ensures { Planned top request result.want result.at result.from }
{
    let layout = Layout::from(request);
    let at = words::align_offset(top as usize, layout.align as usize);
    let want = at + layout.size as usize + layout.extra as usize;
    let from = match request {
        Request::Aligned { .. } => want,
        Request::Bytes(_) | Request::Typed { .. } => at,
    };
    Room { want, at, from }
}

// Where a request that the top meets ends: that alone, since it is what `end_at_top` of the crate above says.
pub fn top_end(cap: u32, top: u32, request: Request) -> Option<usize>
    ensures { result ≡ top_end cap top request }
{
    if !well_formed(request) {
        return None;
    }
    let plain = simplify(request);
    if for_nothing(plain) {
        return None;
    }
    let want = at_top(top, plain).want;
    (want <= cap as usize).then_some(want)
}

// The data size that a segment must have to serve the request.
pub fn need_of(request: Request) -> usize
    requires { well_formed request ≡ true }
    ensures { Needed request result }
{
    let layout = Layout::from(request);
    layout.size as usize + layout.align as usize - 1 + layout.extra as usize
}

// What a refusal under policy None reports as requested.
pub fn asked_of(top: u32, request: Request) -> usize
    requires { (well_formed request ≡ true) × (top ≤ limit) }
    ensures { (result ≡ asked top request) × (result ≤ 4294967295) }
{
    match request {
        Request::Bytes(n) => n as usize,
        Request::Typed { size, align } => words::align_offset(top as usize, align as usize)
            + size as usize,
        Request::Aligned { size, extra, .. } => size as usize + extra as usize,
    }
}

// The block that a request has of a segment whose node stands at p, with a memory size m that meets its need.
#[tactic(auto, using(crate::proofs::Layouts::formed), unfolding(crate::specs::Request::list_block, crate::specs::Request::need))]
pub fn list_block(p: usize, m: usize, request: Request) -> Block
    requires { (well_formed request ≡ true) × (p + 8 + m ≤ limit) × (need request ≤ m) }
    ensures { result ≡ list_block p m request }
{
    match request {
        Request::Bytes(n) => Block {
            memory_offset: p as u32,
            memory_size: m as u32,
            usable_offset: (p + words::NODE_SIZE) as u32,
            usable_size: n,
        },
        Request::Typed { size, align } => Block {
            memory_offset: p as u32,
            memory_size: m as u32,
            usable_offset: words::align_offset(p, align as usize) as u32,
            usable_size: size,
        },
        Request::Aligned { align, .. } => {
            let at = words::align_offset(p, align as usize);
            Block {
                memory_offset: p as u32,
                memory_size: m as u32,
                usable_offset: at as u32,
                usable_size: (p + m - at) as u32,
            }
        }
    }
}
