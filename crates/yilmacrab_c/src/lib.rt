// What programs in C call: include/yilmacrab.h declares it, and says what such a program owes.

#![tactic(auto)]

ghost use Rattle.std.specs.Prelude.{◌≡◌, ◌≢◌, length};
ghost use Rattle.buffers.specs.Outcome.{graph_of_file, table_after, map_after};
ghost use Rattle.buffers.specs.Plain.{calls_told, no_memory, plain_reply_of, put_where};

use buffers::plain::{PlainCall, PlainReply, fold_plain};
use std::alloc::Global;

// The header declares these two with the same layout.
const _: () = prove!(size_of::<PlainCall>() == 6);

const _: () = prove!(size_of::<PlainReply>() == 48);

// `fold_plain`, with the reply in a place of the caller's; its status is answered too. A `Global` takes no bytes, so the caller passes
// nothing for it.
#[unsafe(no_mangle)]
pub extern "C" fn yilmacrab_fold(
    heap: Global,
    file: &[u8],
    calls: &[PlainCall],
    table: &mut [u8],
    map: &mut [u8],
    reply: &mut PlainReply,
) -> u32
    ensures memory { reply.new.status ≡ 2 → reply.new ≡ no_memory }
    ensures reply { reply.new.status ≢ 2 → reply.new ≡ plain_reply_of file.now calls.now (length table.old) (length map.old) }
    ensures table { table.new ≡ put_where reply.new (table_after (graph_of_file file.now) (calls_told calls.now)) table.old }
    ensures map { map.new ≡ put_where reply.new (map_after (graph_of_file file.now) (calls_told calls.now)) map.old }
    ensures status { result ≡ reply.new.status }
{
    *reply = fold_plain(heap, file, calls, table, map);
    reply.status
}
