// The calls for programs in other languages: every public call of the library. Only numbers and pointers cross this boundary: a slice is a pointer and a length, where a null pointer with length 0 is the empty one, and a reply is an array of numbers that the caller lends. Each call takes the kind of object names: 1 is SHA-1, 2 is SHA-256, any other is refused with 29. The first number of a reply is the refusal, 0 of a success, the second its place; all that does not apply is 0. Crate nerupazhil_c exports these calls under the same names.

#![tactic(auto)]

ghost use Rattle.std.specs.Prelude.{◌≡◌, length};
ghost use Rattle.format.specs.Places.{body_in, name_place, entry_name_place, node_place, undo_place};
ghost use Rattle.format.specs.Requests.{put_record, remove_record};
ghost use Rattle.hash.specs.Sha1.{sha1};
ghost use Rattle.sha256.specs.Sha256.{sha256};
ghost use Rattle.kinds.specs.Kinds.{width_of, hash_of, read_kind};
ghost use Rattle.answers.specs.Answers.{cleared, check_answer, entry_answer, node_answer, undo_answer};
ghost use Rattle.entries.specs.Record.{entry_with};
ghost use Rattle.answers.specs.Writing.{rewrite_answer, put_answer, remove_answer};
ghost use Rattle.walk.specs.Walks.{start_answer, walk_answer, place_after};
ghost use Rattle.replies.specs.Arrays.{given_fields, check_reply, start_reply};
ghost use Rattle.nerupazhil.specs.Replies.{EntryReplies, NodeReplies, UndoReplies, StepReplies, WriteReplies};

// ---- the calls that read

pub fn nerupazhil_check(kind: u32, file: &[u8], work: &mut [u8], reply: &mut [u64; 16])
    ensures { (reply.new ≡ check_reply (check_answer work.old (read_kind kind file.now))) × (work.new ≡ cleared work.old) }
{
    *reply = replies::check_reply(index::check(kind, file, work));
}

pub fn nerupazhil_entry(
    kind: u32,
    file: &[u8],
    work: &mut [u8],
    k: u32,
    reply: &mut [u64; 5],
    fields: &mut [u32; 14],
    object: &mut [u8; 32],
)
    ensures { EntryReplies (width_of kind) (entry_name_place (width_of kind) k file.now) (entry_answer work.old k (read_kind kind file.now)) file.now work.old work.new reply.new fields.new object.new }
{
    let answer = index::entry(kind, file, work, k);
    let shown = replies::fields_shown(answer);
    let name = shown.object;
    *reply = replies::entry_reply(answer);
    *fields = replies::field_numbers(shown);
    *object = name;
}

pub fn nerupazhil_tree_node(
    kind: u32,
    file: &[u8],
    work: &mut [u8],
    k: u32,
    reply: &mut [u64; 9],
    object: &mut [u8; 32],
)
    ensures { NodeReplies (width_of kind) (node_place (width_of kind) k file.now) (node_answer work.old k (read_kind kind file.now)) file.now reply.new object.new × (work.new ≡ cleared work.old) }
{
    let answer = index::tree_node(kind, file, work, k);
    *reply = replies::node_reply(answer);
    *object = match answer {
        Ok(node) => node.object,
        Err(_) => [0; 32],
    };
}

pub fn nerupazhil_undo_record(
    kind: u32,
    file: &[u8],
    work: &mut [u8],
    k: u32,
    reply: &mut [u64; 8],
    first: &mut [u8; 32],
    second: &mut [u8; 32],
    third: &mut [u8; 32],
)
    ensures { UndoReplies (width_of kind) (undo_place (width_of kind) k file.now) (undo_answer work.old k (read_kind kind file.now)) file.now reply.new first.new second.new third.new × (work.new ≡ cleared work.old) }
{
    let answer = index::undo_record(kind, file, work, k);
    *reply = replies::undo_reply(answer);
    match answer {
        Ok(record) => {
            let first_name = record.first;
            let second_name = record.second;
            let third_name = record.third;
            *first = first_name;
            *second = second_name;
            *third = third_name;
        }
        Err(_) => {
            *first = [0; 32];
            *second = [0; 32];
            *third = [0; 32];
        }
    }
}

// ---- the calls that write

pub fn nerupazhil_rewrite(
    kind: u32,
    file: &[u8],
    work: &mut [u8],
    out: &mut [u8],
    asked: u32,
    reply: &mut [u64; 3],
)
    ensures { WriteReplies kind file.now asked (λ q. q) (rewrite_answer (width_of kind) (hash_of kind) work.old asked (length out.old) (read_kind kind file.now)) out.old work.old out.new work.new reply.new }
{
    *reply = replies::write_reply(index_write::rewrite(kind, file, work, out, asked));
}

pub fn nerupazhil_put(
    kind: u32,
    file: &[u8],
    work: &mut [u8],
    out: &mut [u8],
    asked: u32,
    name: &[u8],
    fields: &[u32; 14],
    object: &[u8; 32],
    reply: &mut [u64; 3],
)
    ensures { WriteReplies kind file.now asked (put_record (width_of kind) (entry_with (width_of kind) (given_fields fields.now object.now) name.now)) (put_answer (width_of kind) (hash_of kind) work.old asked (entry_with (width_of kind) (given_fields fields.now object.now) name.now) (length out.old) (read_kind kind file.now)) out.old work.old out.new work.new reply.new }
{
    let given = replies::given_fields(fields, object);
    *reply = replies::write_reply(index_write::put(kind, file, work, out, asked, name, given));
}

pub fn nerupazhil_remove(
    kind: u32,
    file: &[u8],
    work: &mut [u8],
    out: &mut [u8],
    asked: u32,
    name: &[u8],
    stage: u32,
    reply: &mut [u64; 3],
)
    ensures { WriteReplies kind file.now asked (remove_record (width_of kind) (record { name = name.entry.now; stage = stage })) (remove_answer (width_of kind) (hash_of kind) work.old asked (record { name = name.entry.now; stage = stage }) (length out.old) (read_kind kind file.now)) out.old work.old out.new work.new reply.new }
{
    *reply = replies::write_reply(index_write::remove(kind, file, work, out, asked, name, stage));
}

// ---- a walk over the entries: the caller keeps the place and how many remain

pub fn nerupazhil_walk_start(kind: u32, file: &[u8], work: &mut [u8], reply: &mut [u64; 4])
    ensures { (reply.new ≡ start_reply (start_answer work.old (read_kind kind file.now))) × (work.new ≡ cleared work.old) }
{
    *reply = replies::start_reply(walk::start(kind, file, work));
}

pub fn nerupazhil_walk_next(
    kind: u32,
    file: &[u8],
    at: usize,
    left: u32,
    reply: &mut [u64; 7],
    fields: &mut [u32; 14],
    object: &mut [u8; 32],
)
    ensures { StepReplies (width_of kind) (name_place (width_of kind) at (body_in (width_of kind) file.now)) (walk_answer kind file.now at left) (place_after kind file.now at left) file.now reply.new fields.new object.new }
{
    let step = walk::step_at(kind, file, at, left);
    let shown = replies::fields_shown(step.answer);
    let name = shown.object;
    *reply = replies::step_reply(replies::shown_in(step.answer), step.next);
    *fields = replies::field_numbers(shown);
    *object = name;
}

// ---- the hashes

pub fn nerupazhil_sha1(bytes: &[u8], out: &mut [u8; 20])
    ensures { out.new ≡ sha1 bytes.now }
{
    *out = hash::sha1(bytes);
}

pub fn nerupazhil_sha256(bytes: &[u8], out: &mut [u8; 32])
    ensures { out.new ≡ sha256 bytes.now }
{
    *out = sha256::sha256(bytes);
}
