// The library for C and Rust: each call of the crates `export_*` as an exported function, with the same clauses. Made by
// embedding/exports.py.
#![tactic(auto)]

ghost use Rattle.pack.specs.Pack.{read_pack};
ghost use Rattle.pack.specs.Answers.{pack_checked, pack_outcome};
ghost use Rattle.exports.specs.Exports.{Told, fits, WritingExported};
ghost use Rattle.placement.specs.Placement.{read_placement};
ghost use Rattle.placement.specs.Answers.{placement_checked, placement_outcome};
ghost use Rattle.std.specs.Prelude.{length, [], ◌∷◌};
ghost use Rattle.planner.specs.Planning.{plan as plan_of};
ghost use Rattle.export_plan.specs.Exported.{PlanExported, AskExported, CommitExported};
ghost use Rattle.operators.specs.Operators.{plan_operator};
ghost use Rattle.commit.specs.Asking.{ask as ask_of};
ghost use Rattle.commit.specs.Committing.{commit as commit_of};
ghost use Rattle.certify.specs.Certify.{certify as certify_of};
ghost use Rattle.join.specs.Join.{join as join_of};
ghost use Rattle.export_join.specs.Exported.{JoinExported};
ghost use Rattle.curve.specs.Curve.{check_curve};
ghost use Rattle.worst.specs.Worst.{check_worst};
ghost use Rattle.export_placement.specs.Exported.{WorstExported};
ghost use Rattle.rounds.specs.Rounds.{check_rounds};
ghost use Rattle.rounds.specs.Answers.{rounds_answer, rounds_outcome};
ghost use Rattle.replay.specs.Replays.{check_replay};
ghost use Rattle.replay.specs.Answers.{replay_answer, replay_outcome};
ghost use Rattle.export_replay.specs.Events.{events_of, replay_stated};
ghost use Rattle.page.specs.Page.{check_page};
ghost use Rattle.report.specs.Replies.{check_into};
ghost use Rattle.export_report.specs.Exported.{ReplyExported};
ghost use Rattle.walk.specs.RowWalk.{open_walk, walk_opened, walk_outcome};
ghost use Rattle.refusal.specs.Refusals.{result as result_of};
ghost use Rattle.export_walk.specs.Steps.{step_values};
ghost use Rattle.number.specs.Numbers.{read_number, read_within, write_number};
ghost use Rattle.number.specs.Answers.{number_read, read_outcome};
ghost use Rattle.export_number.specs.Exported.{NumberExported};

// Checks a pack: `pack_code::check_pack`. The answer has up to 270 numbers: 0, n, r, the first block's place, mu and m of five
// layers, how many nodes are out of service, and these.
#[unsafe(no_mangle)]
pub extern "C" fn musseltwig_check_pack(pack: &[u8], answer: &mut [usize]) -> usize
    ensures { Told (fits 270 answer.old) (pack_outcome (pack_checked (read_pack pack.now)))
        answer.old answer.new result }
{
    export_check::musseltwig_check_pack(pack, answer)
}

// Checks a placement: `placement_code::check_placement`. The answer has up to 531 numbers: 0, the kind, n, r, s, k, b, F, the first
// row's place, lambda and c of five layers, how many nodes are out of service, and these; in kind 6 then g and each node's feeder.
#[unsafe(no_mangle)]
pub extern "C" fn musseltwig_check_placement(placement: &[u8], answer: &mut [usize]) -> usize
    ensures { Told (fits 531 answer.old) (placement_outcome (placement_checked (read_placement placement.now)))
        answer.old answer.new result }
{
    export_check::musseltwig_check_placement(placement, answer)
}

// Plans b records on a pack: `planner_code::plan`. The answer has 8 numbers: 0, the length, F and five counts.
#[unsafe(no_mangle)]
pub extern "C" fn musseltwig_plan(
    pack: &[u8],
    s: usize,
    k: usize,
    b: usize,
    work: &mut [u16],
    out: &mut [u8],
    answer: &mut [usize],
) -> usize
    ensures { PlanExported
        (plan_of pack.now (record { s = s; k = k; b = b }) (length work.old) (length out.old))
        work.old work.new out.old out.new answer.old answer.new result }
{
    export_plan::musseltwig_plan(pack, s, k, b, work, out, answer)
}

// Plans one operator's records: `operators_code::plan_operator`. The answer is that of `musseltwig_plan`.
#[unsafe(no_mangle)]
pub extern "C" fn musseltwig_plan_operator(
    pack: &[u8],
    s: usize,
    k: usize,
    wish: usize,
    other: usize,
    work: &mut [u16],
    out: &mut [u8],
    answer: &mut [usize],
) -> usize
    ensures { PlanExported
        (plan_operator pack.now (record { s = s; k = k; wish = wish; other = other }) (length work.old)
        (length out.old))
        work.old work.new out.old out.new answer.old answer.new result }
{
    export_plan::musseltwig_plan_operator(pack, s, k, wish, other, work, out, answer)
}

// What planning would give: `ask_code::ask`. The answer has 12 numbers: 0, F, five counts and five copies.
#[unsafe(no_mangle)]
pub extern "C" fn musseltwig_ask(
    pack: &[u8],
    s: usize,
    k: usize,
    b: usize,
    work: &mut [u16],
    answer: &mut [usize],
) -> usize
    ensures { AskExported (record { s = s; k = k; b = b })
        (ask_of pack.now (record { s = s; k = k; b = b }) (length work.old))
        work.old work.new answer.old answer.new result }
{
    export_plan::musseltwig_ask(pack, s, k, b, work, answer)
}

// Writes the placement of the split with these counts: `commit_code::commit`. The answer is that of `musseltwig_plan`.
#[unsafe(no_mangle)]
pub extern "C" fn musseltwig_commit(
    pack: &[u8],
    s: usize,
    k: usize,
    b: usize,
    counts: &[usize; 5],
    out: &mut [u8],
    answer: &mut [usize],
) -> usize
    ensures { CommitExported
        (commit_of pack.now (record { s = s; k = k; b = b }) counts.now (length out.old))
        out.old out.new answer.old answer.new result }
{
    export_plan::musseltwig_commit(pack, s, k, b, counts, out, answer)
}

// Certifies a file of bare rows: `certify_code::certify`. The answer has 8 numbers, as that of `musseltwig_commit`: 0, the length, F and
// five counts, of which the one of the layer taken is b and the others are 0.
#[unsafe(no_mangle)]
pub extern "C" fn musseltwig_certify(rows: &[u8], out: &mut [u8], answer: &mut [usize]) -> usize
    ensures { CommitExported (certify_of rows.now (length out.old))
        out.old out.new answer.old answer.new result }
{
    export_certify::musseltwig_certify(rows, out, answer)
}

// Joins one pack: `join_code::join_one`. The answer has 2 numbers: 0 and the joined pack's length.
#[unsafe(no_mangle)]
pub extern "C" fn musseltwig_join_one(first: &[u8], out: &mut [u8], answer: &mut [usize]) -> usize
    ensures { JoinExported (join_of (first.now ∷ []) (length out.old))
        out.old out.new answer.old answer.new result }
{
    export_join::musseltwig_join_one(first, out, answer)
}

// Joins two packs: `join_code::join_two`. The answer is that of `musseltwig_join_one`.
#[unsafe(no_mangle)]
pub extern "C" fn musseltwig_join_two(
    first: &[u8],
    second: &[u8],
    out: &mut [u8],
    answer: &mut [usize],
) -> usize
    ensures { JoinExported (join_of (first.now ∷ second.now ∷ []) (length out.old))
        out.old out.new answer.old answer.new result }
{
    export_join::musseltwig_join_two(first, second, out, answer)
}

// Joins three packs: `join_code::join_three`. The answer is that of `musseltwig_join_one`.
#[unsafe(no_mangle)]
pub extern "C" fn musseltwig_join_three(
    first: &[u8],
    second: &[u8],
    third: &[u8],
    out: &mut [u8],
    answer: &mut [usize],
) -> usize
    ensures { JoinExported
        (join_of (first.now ∷ second.now ∷ third.now ∷ []) (length out.old))
        out.old out.new answer.old answer.new result }
{
    export_join::musseltwig_join_three(first, second, third, out, answer)
}

// The placement's figure for every number of failures: `curve_code::curve`. The answer has 2 numbers: 0 and the entries written.
#[unsafe(no_mangle)]
pub extern "C" fn musseltwig_curve(placement: &[u8], out: &mut [u16], answer: &mut [usize]) -> usize
    ensures { WritingExported (check_curve placement.now (length out.old))
        out.old out.new answer.old answer.new result }
{
    export_placement::musseltwig_curve(placement, out, answer)
}

// The true worst case: `worst_code::worst_case`. The answer has 2 numbers: 0 and the fewest usable records.
#[unsafe(no_mangle)]
pub extern "C" fn musseltwig_worst_case(
    placement: &[u8],
    out: &mut [u8],
    answer: &mut [usize],
) -> usize
    ensures { WorstExported (check_worst placement.now (length out.old))
        out.old out.new answer.old answer.new result }
{
    export_placement::musseltwig_worst_case(placement, out, answer)
}

// Cuts and repairs in turn, q rounds: `rounds_code::rounds`. The answer has 2 numbers: 0 and the usable records.
#[unsafe(no_mangle)]
pub extern "C" fn musseltwig_rounds(placement: &[u8], q: usize, answer: &mut [usize]) -> usize
    ensures { Told (fits 2 answer.old) (rounds_outcome (rounds_answer (check_rounds placement.now q)))
        answer.old answer.new result }
{
    export_placement::musseltwig_rounds(placement, q, answer)
}

// Runs an outage log against a placement: what `replay_code::replay` gives for these events. The answer has up to 3 numbers: 0, the
// lowest number of usable records and the first event after which it stood; for an empty log 0 and b.
#[unsafe(no_mangle)]
pub extern "C" fn musseltwig_replay(
    placement: &[u8],
    times: &[u32],
    nodes: &[u8],
    downs: &[u8],
    answer: &mut [usize],
) -> usize
    ensures { Told (replay_stated times.now nodes.now downs.now answer.old)
        (replay_outcome (replay_answer
        (check_replay placement.now (events_of times.now nodes.now downs.now))))
        answer.old answer.new result }
{
    export_replay::musseltwig_replay(placement, times, nodes, downs, answer)
}

// The placement's page: `page_code::page`. The answer has 2 numbers: 0 and the bytes written.
#[unsafe(no_mangle)]
pub extern "C" fn musseltwig_page(placement: &[u8], out: &mut [u8], answer: &mut [usize]) -> usize
    ensures { WritingExported (check_page placement.now (length out.old))
        out.old out.new answer.old answer.new result }
{
    export_placement::musseltwig_page(placement, out, answer)
}

// What the program `check` prints of a placement: `report_check::check_reply`. The answer has 2 numbers: 0 and the line's length.
#[unsafe(no_mangle)]
pub extern "C" fn musseltwig_check_reply(
    placement: &[u8],
    out: &mut [u8],
    answer: &mut [usize],
) -> usize
    ensures { ReplyExported (check_into placement.now (length out.old))
        out.old out.new answer.old answer.new result }
{
    export_report::musseltwig_check_reply(placement, out, answer)
}

// Opens a row walk: `walk_code::opened`. The answer has 4 numbers: 0, the first row's place, r and b, which a step takes.
#[unsafe(no_mangle)]
pub extern "C" fn musseltwig_open_walk(placement: &[u8], answer: &mut [usize]) -> usize
    ensures { Told (fits 4 answer.old) (walk_outcome (walk_opened (open_walk placement.now)))
        answer.old answer.new result }
{
    export_walk::musseltwig_open_walk(placement, answer)
}

// A step of a row walk: `walk_rows::row_at` and `moved`. The answer has 6 numbers: 0, where the row begins in the placement and its
// length, 0 and 0 at the end, and the place, r and what is left for the next step.
#[unsafe(no_mangle)]
pub extern "C" fn musseltwig_step(
    placement: &[u8],
    at: usize,
    r: usize,
    left: usize,
    answer: &mut [usize],
) -> usize
    ensures { Told (fits 6 answer.old)
        (result_of (step_values placement.now (record { at = at; r = r; left = left })))
        answer.old answer.new result }
{
    export_walk::musseltwig_step(placement, at, r, left, answer)
}

// Reads a number: `number_code::read_number`. The answer has 3 numbers: 0, the value and the next place.
#[unsafe(no_mangle)]
pub extern "C" fn musseltwig_read_number(bytes: &[u8], at: usize, answer: &mut [usize]) -> usize
    ensures { Told (fits 3 answer.old) (read_outcome (number_read (read_number bytes.now at)))
        answer.old answer.new result }
{
    export_number::musseltwig_read_number(bytes, at, answer)
}

// Reads a number within limits: `number_code::read_within`. The answer is that of `musseltwig_read_number`.
#[unsafe(no_mangle)]
pub extern "C" fn musseltwig_read_within(
    bytes: &[u8],
    at: usize,
    lo: usize,
    hi: usize,
    answer: &mut [usize],
) -> usize
    ensures { Told (fits 3 answer.old) (read_outcome (number_read (read_within lo hi bytes.now at)))
        answer.old answer.new result }
{
    export_number::musseltwig_read_within(bytes, at, lo, hi, answer)
}

// Writes a number in its shortest form: `number_writer::write_number`. The answer has 2 numbers: 0 and the bytes written.
#[unsafe(no_mangle)]
pub extern "C" fn musseltwig_write_number(
    out: &mut [u8],
    value: usize,
    answer: &mut [usize],
) -> usize
    ensures { NumberExported (write_number (length out.old) value)
        out.old out.new answer.old answer.new result }
{
    export_number::musseltwig_write_number(out, value, answer)
}
