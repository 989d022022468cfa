// The same for callers in other languages: calls and replies as numbers.
ghost use Rattle.std.specs.Prelude.{◌≡◌, ◌≢◌, length, IfOk, OnErr};
ghost use Rattle.buffers.specs.Outcome.{graph_of_file, table_after, map_after, reply_of, put_if};
ghost use Rattle.buffers.specs.Plain.{call_told, calls_told, unknown_at, status_number, nothing, unrefused, refused, numbers_of, no_memory, plain_reply_of, put_where};

use super::{Done, Reply, fold_file};
use calls::Call;
use fault::Fault;
use std::alloc::{AllocError, Global};

// A call as numbers: its kind, 1 to 5 in the order of `Call`, and what it takes.
#[repr(C)]
#[derive(Clone, Copy, PartialEq, Eq, Debug)]
pub struct PlainCall {
    pub kind: u16,
    pub first: u16,
    pub second: u16,
}

// What became of it all, with its number.
#[derive(Clone, Copy, PartialEq, Eq, Debug)]
enum Status {
    Written = 0,
    Refused = 1,
    NoMemory = 2,
    UnknownCall = 3,
}

impl From<Status> for u32 {
    ghost from_gives = { λ status r. r ≡ status_number status };

    fn from(status: Status) -> u32 {
        status as u32
    }
}

// A reply as numbers: the status, the refusal where there is one, the counts and the two lengths.
#[repr(C)]
#[derive(Clone, Copy, PartialEq, Eq, Debug)]
pub struct PlainReply {
    pub status: u32,
    pub number: u32,
    pub place: u64,
    pub layer: u32,
    pub present: u16,
    pub dropped: u16,
    pub merged: u16,
    pub rounds: u16,
    pub table: usize,
    pub map: usize,
}

impl PlainCall {
    // The call that the numbers tell. A number that it does not take is not looked at.
    fn told(self) -> Option<Call>
        ensures { result ≡ call_told self }
    {
        let PlainCall {
            kind,
            first,
            second,
        } = self;
        match kind {
            1 => Some(Call::Bind {
                name: first,
                section: second,
            }),
            2 => Some(Call::Pin { section: first }),
            3 => Some(Call::Root { section: first }),
            4 => Some(Call::Sweep),
            5 => Some(Call::Fold),
            _ => None,
        }
    }
}

// Nothing done.
fn nothing() -> Done
    ensures { result ≡ nothing }
{
    Done {
        table: 0,
        map: 0,
        present: 0,
        dropped: 0,
        merged: 0,
        rounds: 0,
    }
}

// A reply with no refusal.
fn unrefused(status: Status, place: u64, done: Done) -> PlainReply
    ensures { result ≡ unrefused status place done }
{
    PlainReply {
        status: status.into(),
        number: 0,
        place,
        layer: 0,
        present: done.present,
        dropped: done.dropped,
        merged: done.merged,
        rounds: done.rounds,
        table: done.table,
        map: done.map,
    }
}

// A reply with one.
fn refused(fault: Fault, done: Done) -> PlainReply
    ensures { result ≡ refused fault done }
{
    PlainReply {
        number: u8::from(fault.kind).into(),
        layer: u8::from(fault.layer).into(),
        ..unrefused(Status::Refused, fault.place, done)
    }
}

impl From<Reply> for PlainReply {
    ghost from_gives = { λ reply r. r ≡ numbers_of reply };

    #[tactic(auto, unfolding(crate::specs::Plain::numbers_of))]
    fn from(reply: Reply) -> PlainReply {
        match reply {
            Reply::Written(done) => unrefused(Status::Written, 0, done),
            Reply::Short(fault, done) => refused(fault, done),
            Reply::Refused(fault) => refused(fault, nothing()),
        }
    }
}

// The calls that are told.
fn told_calls(heap: Global, calls: &[PlainCall]) -> Result<Vec<Call>, AllocError>
    ensures { IfOk result (λ told. told.items ≡ calls_told calls.now) }
{
    calls.iter().filter_map(|call| call.told()).collect(heap)
}

// The same of calls that are all known. The reply is named, since nothing is known of it behind a result that is passed on.
fn fold_known(
    heap: Global,
    file: &[u8],
    calls: &[PlainCall],
    table: &mut [u8],
    map: &mut [u8],
) -> Result<Reply, AllocError>
    ensures reply { IfOk result (λ reply. reply ≡ reply_of file.now (calls_told calls.now) (length table.old) (length map.old)) }
    ensures table { IfOk result (λ reply. table.new ≡ put_if reply (table_after (graph_of_file file.now) (calls_told calls.now)) table.old) }
    ensures map { IfOk result (λ reply. map.new ≡ put_if reply (map_after (graph_of_file file.now) (calls_told calls.now)) map.old) }
    ensures kept { OnErr result ((table.new ≡ table.old) × (map.new ≡ map.old)) }
{
    let told = told_calls(heap, calls)?;
    let reply = fold_file(heap, file, told.as_slice(), table, map)?;
    Ok(reply)
}

// The index of the first that is no call.
fn unknown(calls: &[PlainCall]) -> Option<usize>
    ensures { result ≡ unknown_at calls.now }
{
    calls.iter().position(|call| call.told().is_none())
}

// `fold_file` in numbers. The first of the calls that is none ends it too, before the file is read, and so does want of memory.
#[tactic(auto, using(crate::proofs::Buffers::put_numbers, crate::proofs::Buffers::put_unknown, crate::proofs::Buffers::put_no_memory, crate::proofs::Buffers::numbers_known))]
pub fn fold_plain(
    heap: Global,
    file: &[u8],
    calls: &[PlainCall],
    table: &mut [u8],
    map: &mut [u8],
) -> PlainReply
    ensures memory { result.status ≡ 2 → result ≡ no_memory }
    ensures reply { result.status ≢ 2 → result ≡ plain_reply_of file.now calls.now (length table.old) (length map.old) }
    ensures table { table.new ≡ put_where result (table_after (graph_of_file file.now) (calls_told calls.now)) table.old }
    ensures map { map.new ≡ put_where result (map_after (graph_of_file file.now) (calls_told calls.now)) map.old }
{
    match unknown(calls) {
        Some(index) => unrefused(Status::UnknownCall, index as u64, nothing()),
        None => match fold_known(heap, file, calls, table, map) {
            Ok(reply) => reply.into(),
            Err(_) => unrefused(Status::NoMemory, 0, nothing()),
        },
    }
}
