// A run of one sheet, tick by tick.
#![tactic(auto)]

ghost use Rattle.std.specs.Prelude.{◌≡◌, not, ◌++◌, ◌+◌, ◌^◌, ◌<◌, ◌≤◌, ltb, length, drop, if◌then◌else◌, position};
ghost use Rattle.meaning.specs.Numbers.{max_inputs, max_signals, max_outputs};
ghost use Rattle.meaning.specs.Basic.{bit, bits_of, from_bits};
ghost use Rattle.meaning.specs.Tick.{values, initial, taken, shown};
ghost use Rattle.meaning.specs.Answer.{bad_vector_place};
ghost use Rattle.sheet.specs.Stored.{signal_of, sheet_of, Whole};
ghost use Rattle.tick.specs.Tick.{padded, state_of, held_by, Gives, value_of, tick_of, numbers_of, Ran};

use answer::{Answer, Done, File, Refusal, Refused};
use sheet::{Few, Kind, Sheet, Signal, read_sheet};

// What the registers hold, in order.
#[derive(Clone, Copy)]
pub struct State {
    pub held: Few<bool, { Sheet::REGISTERS }>,
}

// What a tick gives: the outputs' number, and what the registers hold after it.
#[derive(Clone, Copy)]
struct Tick {
    shown: u16,
    next: State,
}

// ## One tick

// Value i of some values, false past the last.
fn at(v: &[bool], i: usize) -> bool
    ensures { result ≡ bit v.now i }
{
    v.get(i).copied().unwrap_or(false)
}

// A vector is one byte, input i in bit i.
#[tactic(auto, using(crate::proofs::Bits::bit_masked, crate::proofs::Bits::bit_beyond))]
fn input(vector: u8, i: usize) -> bool
    ensures { result ≡ bit (bits_of max_inputs vector) i }
{
    i < Sheet::INPUTS && (vector >> i) & 1 == 1
}

// The value of one signal: the next register's, the next input's, or what a gate makes of the values before it.
#[tactic(auto, unfolding(crate::specs::Tick::value_of, sheet::specs::Stored::signal_of, meaning::specs::Sheet::signal_of, meaning::specs::Tick::gate_value))]
fn value(x: Signal, held: bool, given: bool, v: &[bool]) -> bool
    ensures { result ≡ value_of (signal_of x) held given v.now }
{
    let a = at(v, usize::from(x.a));
    let b = at(v, usize::from(x.b));
    match x.kind {
        Kind::Input => given,
        Kind::Register => held,
        Kind::Not => !a,
        Kind::And => a & b,
        Kind::Or => a | b,
        Kind::Xor => a != b,
    }
}

// The values of all signals, from those of the registers and the bits of a vector; the places after them hold false.
pub fn values(s: &Sheet, state: &State, vector: u8) -> [bool; Sheet::SIGNALS]
    requires { Whole s.now }
    ensures { result ≡ padded max_signals (values (sheet_of s.now).signals state.now.held.items (bits_of max_inputs vector)) }
{
    // An array padded with false, as the contract says: a Few has no place after the last.
    let mut v = [false; Sheet::SIGNALS];
    // The registers and the inputs so far: some signals only, so no range or enumerate counts them.
    let mut registers = 0;
    let mut inputs = 0;
    for (i, x) in s.signals.iter().enumerate() {
        v[i] = value(*x, at(&state.held, registers), input(vector, inputs), &v);
        match x.kind {
            Kind::Register => registers += 1,
            Kind::Input => inputs += 1,
            Kind::Not | Kind::And | Kind::Or | Kind::Xor => (),
        }
    }
    v
}

// The registers hold what `value` says of each, in order.
fn state_by<F: Fn(Signal) -> bool>(s: &Sheet, value: F) -> State
    requires whole { Whole s.now }
    requires callable { F.IsAlwaysCallable value }
    ensures { (f : _) → Gives (F.post value) f → result ≡ state_of (held_by f (sheet_of s.now).signals) }
{
    let mut held = Few::new();
    for x in s.signals.iter() {
        if x.kind == Kind::Register {
            held.push(value(*x));
        }
    }
    State { held }
}

// What the registers hold at tick 0.
pub fn initial(s: &Sheet) -> State
    requires { Whole s.now }
    ensures { result ≡ state_of (initial (sheet_of s.now).signals) }
{
    state_by(s, |x| x.a == 1)
}

// What they hold after a tick with the values v: every register takes its source's value at once.
fn taken(s: &Sheet, v: &[bool]) -> State
    requires { Whole s.now }
    ensures { result ≡ state_of (taken (sheet_of s.now).signals v.now) }
{
    state_by(s, |x| at(v, usize::from(x.b)))
}

// A number with output i put in bit i, above the outputs before it.
#[tactic(auto, using(crate::proofs::Showing::put_bit))]
fn put_output(number: u16, value: bool, i: usize) -> u16
    requires { (i < max_outputs) × (number < 2 ^ i) }
    ensures { result ≡ number + (if value then 2 ^ i else 0) }
{
    number | u16::from(value) << i
}

// The outputs of a tick with the values v, as a number: output i in bit i, unused bits 0.
fn shown(s: &Sheet, v: &[bool]) -> u16
    requires { Whole s.now }
    ensures { result ≡ from_bits (shown (sheet_of s.now).outputs v.now) }
{
    let mut number = 0;
    for (i, o) in s.outputs.iter().enumerate() {
        number = put_output(number, at(v, usize::from(o.signal)), i);
    }
    number
}

// Gates and outputs follow from registers and the vector; then the registers take their sources' values.
#[tactic(auto, using(crate::proofs::Running::tick_made))]
fn one_tick(s: &Sheet, state: &State, vector: u8) -> Tick
    requires { Whole s.now }
    ensures { result ≡ tick_of (sheet_of s.now) state.now.held.items (bits_of max_inputs vector) }
{
    let v = values(s, state, vector);
    Tick {
        shown: shown(s, &v),
        next: taken(s, &v),
    }
}

// ## A run

// Whether a vector has a bit beyond the inputs.
#[tactic(auto, using(crate::proofs::Vectors::shifted_none))]
fn beyond(vector: u8, inputs: usize) -> bool
    requires { inputs ≤ max_inputs }
    ensures { result ≡ not (ltb vector (2 ^ inputs)) }
{
    u16::from(vector) >> inputs != 0
}

// The first tick whose vector has a bit beyond the inputs.
fn bad_vector(inputs: usize, vectors: &[u8]) -> Option<usize>
    requires { inputs ≤ max_inputs }
    ensures { result ≡ position (λ v. not (ltb v (2 ^ inputs))) vectors.now }
{
    vectors.iter().position(|v| beyond(*v, inputs))
}

// The ticks of a run, each with its vector and its number.
fn ticks(s: &Sheet, vectors: &[u8], res: &mut [u16])
    requires whole { Whole s.now }
    requires vectors_in_bounds { length vectors.now ≤ length res.old }
    requires vectors_len_bound { length vectors.now ≤ bad_vector_place s.now.inputs 0 vectors.now }
    ensures { res.new ≡ numbers_of (sheet_of s.now) vectors.now ++ drop (length vectors.now) res.old }
{
    let mut state = initial(s);
    for (t, vector) in vectors.iter().enumerate() {
        let tick = one_tick(s, &state, *vector);
        res[t] = tick.shown;
        state = tick.next;
    }
}

// A run of the sheet in a file, with a vector for each tick: sheet, OUT, VECTOR. The result gets a number for each tick.
pub fn run(file: &[u8], vectors: &[u8], res: &mut [u16]) -> Answer
    ensures { Ran file.now vectors.now res.old result res.new }
{
    let s = read_sheet(file).map_err(|fault| fault.in_file(File::A))?;
    let needed = vectors.len();
    if res.len() < needed {
        return Err(Refused {
            refusal: Refusal::Out,
            file: File::Nothing,
            at: needed,
        });
    }
    if let Some(bad) = bad_vector(s.inputs, vectors) {
        return Err(Refused {
            refusal: Refusal::Vector,
            file: File::Nothing,
            at: bad,
        });
    }
    ticks(&s, vectors, res);
    Ok(Done::Wrote(needed))
}
