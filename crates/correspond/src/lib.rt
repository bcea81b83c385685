// Check and refine on two sheets that are alike: start room, START, step room, STEP and outputs, round by round. Ids and groupings stand in
// the first places of arrays: an ArrayVec would first be filled with zeros and cut, as they are put into places.
#![tactic(auto)]

ghost use Rattle.std.specs.Prelude.{◌≡◌, ◌<◌, length, MatchOption};
ghost use Rattle.arrayvec.specs.ArrayVec.{array_vec_len};
ghost use Rattle.meaning.specs.Joint.{paired, output_fault};
ghost use Rattle.meaning.specs.Answer.{outputs_verdict};
ghost use Rattle.answer.specs.Meant.{answer_of};
ghost use Rattle.work.specs.Lists.{left, right, joint};
ghost use Rattle.work.specs.Stages.{Front};
ghost use Rattle.correspond.specs.Verdicts.{Grouped, out_of_room, CheckSays, RoundSays, SettleSays, RefineSays};

use answer::{Answer, Done, File, Reason, Refusal, Refused};
use diagram::Full;
use diagram::table::Table;
use groups::{fault, split};
use sheet::Sheet;
use work::{Normals, Pair, front_list, start_list, step_list};

// A list has no room: 0 is the start list, r + 1 the step list of T_r.
fn no_room(list: usize) -> Refused
    ensures { result ≡ out_of_room list }
{
    Refused {
        refusal: Refusal::NoRoom,
        file: File::Nothing,
        at: list,
    }
}

// Whether the signals that output i names on the one sheet and on the other are in one class and have the same polarity.
// Grouped stays a clause, here and below: check_pair, which docs/DECISIONS.md names, may not ask for a narrower type, nor may refine_pair.
#[tactic(auto, using(crate::proofs::Pairing::in_a, crate::proofs::Pairing::in_b, crate::proofs::Pairing::paired_plain, crate::proofs::Pairing::not_paired))]
fn is_paired(p: &Pair, g: &[u16], i: usize) -> bool
    requires grouped { Grouped p.now g.now }
    requires output { i < array_vec_len p.now.a.outputs }
    ensures { result ≡ paired (left p.now) (right p.now) g.now i }
{
    let u = usize::from(p.a.outputs[i].signal);
    let v = p.a.signals.len() + usize::from(p.b.outputs[i].signal);
    g[u] == g[v] && p.plain[u] == p.plain[v]
}

// The least unpaired output, if there is one.
fn unpaired(p: &Pair, g: &[u16]) -> Option<usize>
    requires { Grouped p.now g.now }
    ensures { MatchOption result (output_fault (left p.now) (right p.now) g.now ≡ array_vec_len p.now.a.outputs) (λ i. (i ≡ output_fault (left p.now) (right p.now) g.now) × (i < array_vec_len p.now.a.outputs)) }
{
    (0..p.a.outputs.len()).find(|i| !is_paired(p, g, *i))
}

// The verdict on the outputs, with the rounds and the nodes.
#[tactic(auto, using(crate::proofs::Pairing::outputs_unpaired, crate::proofs::Pairing::outputs_paired))]
fn outputs(p: &Pair, g: &[u16], rounds: usize, nodes: usize) -> Answer
    requires { Grouped p.now g.now }
    ensures { answer_of result ≡ outputs_verdict (left p.now) (right p.now) g.now rounds nodes }
{
    match unpaired(p, g) {
        Some(i) => Ok(Done::Undecided(Reason::Outputs, i, rounds, nodes)),
        None => Ok(Done::Equivalent(rounds, nodes)),
    }
}

// Start room, START, step room, STEP, outputs. Each stage is opened by a let-else, a form that the yard asked for by name.
// refine_pair begins alike: the arrays stand in the frame of the call, so no function could make them for both.
#[tactic(auto, using(crate::proofs::Pairing::enough_places), unfolding(work::specs::Stages::FrontSays))]
pub fn check_pair(t: &mut [u16], p: &Pair, g: &[u16]) -> Answer
    requires { Grouped p.now g.now }
    ensures { CheckSays p.now g.now t.old t.new result }
{
    let n = g.len();
    let mut ids = [0u16; Sheet::JOINT];
    let mut h = [0u16; Sheet::JOINT];
    let mut h_next = [0u16; Sheet::JOINT];
    let ids = &mut ids[..n];
    let h = &mut h[..n];
    let h_next = &mut h_next[..n];
    let mut table = Table::new(t);
    let Ok(()) = start_list(&mut table, p, ids) else {
        return Err(no_room(0));
    };
    if let Some(v) = fault(g, ids) {
        return Ok(Done::Undecided(Reason::Start, v, 0, table.head.most));
    }
    let Ok(()) = front_list(&mut table, p, h, h_next) else {
        return Err(no_room(1));
    };
    let Ok(()) = step_list(&mut table, p, g, Normals { h, h_next }, ids) else {
        return Err(no_room(1));
    };
    if let Some(w) = fault(g, ids) {
        return Ok(Done::Undecided(Reason::Step, w, 0, table.head.most));
    }
    outputs(p, g, 0, table.head.most)
}

// How a round ends for which there is room: the grouping stays, or it splits.
#[derive(Clone, Copy, Debug, PartialEq, Eq)]
enum Round {
    Stays,
    Splits,
}

// One round: g split by the step rule under g. The table comes with the front of the step list, and where the grouping splits it has
// the front again. Front stays a clause: step_list, which docs/PROMISES.md names, may not ask for a narrower type.
#[tactic(auto, using(crate::proofs::Pairing::enough_places))]
fn one_round(table: &mut Table, p: &Pair, g: &mut [u16], normals: Normals) -> Result<Round, Full>
    requires grouped { Grouped p.now g.old }
    requires front { Front p.now table.old.words.now table.old.head normals.h.now normals.h_next.now }
    ensures same_reference { table.new.words.ghost_name ≡ table.old.words.ghost_name }
    ensures round { RoundSays p.now normals.entry.h.now normals.entry.h_next.now g.old table.old.words.now table.old.head table.new.words.now table.new.head g.new result }
{
    let n = g.len();
    let front = table.head.used;
    let mut ids = [0u16; Sheet::JOINT];
    let mut next = [0u16; Sheet::JOINT];
    let ids = &mut ids[..n];
    let next = &mut next[..n];
    step_list(table, p, g, normals, ids)?;
    split(g, ids, next);
    if *g == *next {
        return Ok(Round::Stays);
    }
    g.copy_from_slice(next);
    table.forget(front);
    Ok(Round::Splits)
}

// Rounds until the grouping stays: how many split something. Each but the last splits a class, so they are fewer than the signals. The
// front of their step lists is made once: each goes on from it.
fn settle(table: &mut Table, p: &Pair, g: &mut [u16], normals: Normals) -> Result<usize, Refused>
    requires grouped { Grouped p.now g.old }
    requires front { Front p.now table.old.words.now table.old.head normals.h.now normals.h_next.now }
    ensures same_reference { table.new.words.ghost_name ≡ table.old.words.ghost_name }
    ensures settled { SettleSays p.now g.old table.old.words.now table.old.head table.new.words.now table.new.head g.new result }
{
    let n = g.len();
    for r in 0..n {
        match one_round(table, p, g, normals) {
            Ok(Round::Stays) => return Ok(r),
            Ok(Round::Splits) => {}
            Err(_) => return Err(no_room(r + 1)),
        }
    }
    Ok(n)
}

// Start room, step room of T_0 to T_r, outputs; T_r in g unless there is no room.
#[tactic(auto, using(crate::proofs::Pairing::enough_places))]
pub fn refine_pair(t: &mut [u16], p: &Pair, proposal: &[u16], g: &mut [u16]) -> Answer
    requires grouped { Grouped p.now proposal.now }
    requires sized { length g.old ≡ joint p.now }
    ensures { RefineSays p.now proposal.now t.old t.new g.new result }
{
    let n = proposal.len();
    let mut ids = [0u16; Sheet::JOINT];
    let mut h = [0u16; Sheet::JOINT];
    let mut h_next = [0u16; Sheet::JOINT];
    let ids = &mut ids[..n];
    let h = &mut h[..n];
    let h_next = &mut h_next[..n];
    let mut table = Table::new(t);
    let Ok(()) = start_list(&mut table, p, ids) else {
        return Err(no_room(0));
    };
    split(proposal, ids, g);
    let Ok(()) = front_list(&mut table, p, h, h_next) else {
        return Err(no_room(1));
    };
    let rounds = settle(&mut table, p, g, Normals { h, h_next })?;
    outputs(p, g, rounds, table.head.most)
}
