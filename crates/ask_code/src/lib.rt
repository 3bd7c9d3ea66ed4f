// Asking: the figure, the counts and the copies that planning would write.
#![tactic(auto)]

ghost use Rattle.std.specs.Prelude.{◌≡◌, map, length};
ghost use Rattle.lists.specs.Lists.{up_to};
ghost use Rattle.refusal.specs.Checked.{accepted, refused};
ghost use Rattle.split.specs.Splits.{counts_split};
ghost use Rattle.commit.specs.Asking.{named_offer, ask_layers, ask as ask_of, ask_answer, AskDone};
ghost use Rattle.commit.specs.Asked.{LayersHeld, Askable, CopiesFit};

use commit::AskResult;
use layers::{Base, LayerHead};
use placement::{Order, Rule};
use planner_writer::copies_for;
use refusal::Refusal;

// The answer that refuses.
fn refuse(e: Refusal) -> AskResult
    ensures { result ≡ ask_answer (refused e) }
{
    AskResult {
        answer: Err(e),
        counts: [0; 5],
        copies: [0; 5],
    }
}

// The least copies of each layer's blocks that hold its count.
fn copies_of(layers: [LayerHead; 5], counts: [usize; 5]) -> [usize; 5]
    requires { CopiesFit layers counts }
    ensures { result ≡ map (λ x. (counts_split layers counts x).copies) (up_to 5) }
{
    let h0 = layers[0];
    let h1 = layers[1];
    let h2 = layers[2];
    let h3 = layers[3];
    let h4 = layers[4];
    [
        copies_for(counts[0], h0.size),
        copies_for(counts[1], h1.size),
        copies_for(counts[2], h2.size),
        copies_for(counts[3], h3.size),
        copies_for(counts[4], h4.size),
    ]
}

// Answers an order that passes the checks: chooses the counts, in the working slice, and gives their figure and copies.
fn offer(layers: [LayerHead; 5], order: Order, work: &mut [u16]) -> AskResult
    requires { Askable layers order (length work.old) }
    ensures { AskDone order (accepted (named_offer layers order)) work.old work.new result }
{
    let s = order.s;
    let counts = split_code::choose_counts(layers, order, work);
    let heads = planner_writer::split_heads(layers, counts, s);
    let figure = placement_figure::figure_of(Rule::NestedFloors, order, heads);
    let copies = copies_of(layers, counts);
    AskResult {
        answer: Ok(figure),
        counts,
        copies,
    }
}

// Checks an order on a pack whose numbers are known, and answers it.
fn ask_layers(base: Base, layers: [LayerHead; 5], order: Order, work: &mut [u16]) -> AskResult
    requires { LayersHeld base layers }
    ensures { AskDone order (ask_layers base.n base.r layers order (length work.old))
        work.old work.new result }
{
    let s = order.s;
    let limits = planner_order::check_order(base, order);
    if let Err(e) = limits {
        return refuse(e);
    }
    let some = planner_order::check_blocks(layers, s);
    if let Err(e) = some {
        return refuse(e);
    }
    let entries = planner_order::check_work(order, work.len());
    if let Err(e) = entries {
        return refuse(e);
    }
    offer(layers, order, work)
}

// What planning b records on a pack would give: the figure, the counts and the copies of the split that document 01 names.
// Nothing is written but the working slice's first s × (b+1) entries, which are free afterwards.
pub fn ask(pack: &[u8], s: usize, k: usize, b: usize, work: &mut [u16]) -> AskResult
    ensures { AskDone (record { s = s; k = k; b = b })
        (ask_of pack.now (record { s = s; k = k; b = b }) (length work.old))
        work.old work.new result }
{
    let checked = pack_code::check_pack(pack);
    let layers = checked.layers;
    let dark = checked.dark;
    let answer = checked.answer;
    match answer {
        Err(e) => refuse(e),
        Ok(head) => {
            let base = Base {
                n: head.n,
                r: head.r,
                dark,
            };
            ask_layers(base, layers, Order { s, k, b }, work)
        }
    }
}
