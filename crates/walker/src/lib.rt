// The walker: whole and paused walks over a table of 16-bit words.
#![tactic(auto)]

ghost use Rattle.std.specs.Prelude.{◌≡◌, ◌+◌, ◌*◌, ◌-◌, ◌%◌, ◌<◌, ◌≤◌, ◌^◌, set, IfSome, IfNone};
ghost use Rattle.machine.specs.Bytes.{count, word_at};
ghost use Rattle.machine.specs.Lengths.{lengths, length_of};
ghost use Rattle.walker.specs.Shape.{size, set_word, put_event, swapped, number_of, ending_number};
ghost use Rattle.walker.specs.Shape.{fresh_at, moved, read_one, spent_one, answered_one, with_result, with_parameter, popped_to, with_depth, first64};
ghost use Rattle.walker.specs.Shape.{otherwise_of, label_of, labelled_of, table_at, labels_at, inside_table, choice_of, default_of, take_other};
ghost use Rattle.walker.specs.Shape.{forward_of, back_of, mend_of, input_of, any_of, tell_of, input_choice_of, call_of, back_to, return_of, answer_of};
ghost use Rattle.walker.specs.Shape.{in_full, operate_of, fetched_of, step_of, go_of, whole_of, paused_of, pushed};
ghost use Rattle.walker.specs.Steps.{with_at, in_phase, token_read, returned, answered, says, Holds, took_of, number_at, next_of, walk_step_of, outcome, called, Ends, last_of};
ghost use Rattle.walker.specs.declared.Ending.{Ending};
ghost use Rattle.walker.specs.declared.Phase.TheVariants.{Stopped};

use base::{PENDING, low_word};
use machine::{
    ASK, ASK_WITH, CALL, CHOICE, EMIT, END_CHOICE, ERROR, EVENT_WORDS, INPUT, INPUT_ANY,
    INPUT_CHOICE, JUMP_BACK, JUMP_FORWARD, LAST_PLAIN, PAST_OPERATIONS, RETURN, SET_PARAMETER,
    SET_RESULT, UPDATE, UPDATE_WITH,
};

// Why a walk has stopped for good.
#[derive(Clone, Copy, Debug, PartialEq, Eq)]
pub enum Reason {
    Finished,
    Differs,
    Missing,
    Unlabelled,
    Deep,
    Unanswered,
    Outside,
}

// The number of a call that leaves a walk stopped.
impl From<Reason> for u16 {
    ghost from_gives = { λ why n. n ≡ number_of why };

    fn from(why: Reason) -> u16 {
        match why {
            Reason::Finished => 0,
            Reason::Differs => base::DIFFERS,
            Reason::Missing => base::MISSING,
            Reason::Unlabelled => base::UNLABELLED,
            Reason::Deep => base::DEEP,
            Reason::Unanswered => base::UNANSWERED,
            Reason::Outside => base::OUTSIDE,
        }
    }
}

// How a call ends.
#[derive(Clone, Copy, Debug, PartialEq, Eq)]
pub enum Ending {
    Stopped(Reason),
    // the walk cannot be called so
    Refused,
    // for an operation's answer
    Waits,
    // no room for an event
    Full,
    // the budget is spent
    Spent,
}

// The call's number: include/sst.h.
impl From<Ending> for u16 {
    ghost from_gives = { λ ending n. n ≡ ending_number ending };

    fn from(ending: Ending) -> u16 {
        match ending {
            Ending::Stopped(why) => u16::from(why),
            Ending::Refused => base::REFUSED,
            Ending::Waits => base::WAITS,
            Ending::Full => base::FULL,
            Ending::Spent => base::SPENT,
        }
    }
}

// A walk is going on, waits for an operation's answer, or has stopped.
#[derive(Clone, Copy, Debug, PartialEq, Eq)]
pub enum Phase {
    Going,
    Waiting,
    Stopped(Reason),
}

// An event before its three words are written: an output token, an error, a repaired token, an operation, an operation with its parameter.
#[derive(Clone, Copy, Debug, PartialEq, Eq)]
pub enum Event {
    Output(u16),
    Error(u16),
    Repair(u16),
    Plain(u16),
    With(u16, u16),
}

// The walk but for its phase and its return locations: what most instructions change. Kept apart so that a step does not copy the stack.
#[derive(Clone, Copy, Debug, PartialEq, Eq)]
pub struct Registers {
    pub location: usize,
    // return locations held; more than 64 are read as the first 64
    pub depth: usize,
    // words, read modulo 65,536; wide, as two narrow fields that share a machine word make each step wait for its stores
    pub result: u64,
    pub parameter: u64,
    // tokens read, answers used
    pub read: u64,
    pub used: u64,
    // repairs left, read modulo 65,536 as result and parameter are
    pub allowance: u64,
}

#[derive(Clone, Copy, Debug, PartialEq, Eq)]
pub struct Walk {
    pub phase: Phase,
    pub at: Registers,
    // the oldest first
    pub returns: [u16; PENDING],
}

// What one instruction does.
#[derive(Clone, Copy, Debug, PartialEq, Eq)]
pub enum Next {
    // 35: no room for an event
    Full,
    // 37
    Outside,
    // any other stop
    Stop(Reason),
    On(Registers),
    Tells(Registers, Event),
    // a call: where it goes on, and the return location to keep
    Push(Registers, u16),
    // a paused walk hands an operation out
    Waits(Registers, Event),
}

// What a step tells its call.
#[derive(Clone, Copy, Debug, PartialEq, Eq)]
pub enum Said {
    // the walk goes on
    On,
    // it goes on, and the event is to be written
    Tells(Event),
    // nothing was done; the call ends so
    Undone(Ending),
    // the walk has stopped
    Stops(Reason),
    // the operation is handed out, its event to be written
    Hands(Event),
}

// What a step gives: the walk back, and what its call is told.
#[derive(Clone, Copy, Debug, PartialEq, Eq)]
pub struct Stepped {
    pub walk: Walk,
    pub said: Said,
}

// Where a choice goes.
#[derive(Clone, Copy, Debug, PartialEq, Eq)]
pub enum Target {
    Label(usize),
    Otherwise(usize),
    Outside,
}

// The labels of a choice, which stand at every second word: the index of the first, and how many.
#[derive(Clone, Copy, Debug, PartialEq, Eq)]
struct Labels {
    first: usize,
    count: usize,
}

// What a call gives: the walk, the events written, the steps done, how it ended.
#[derive(Clone, Copy, Debug, PartialEq, Eq)]
pub struct Called {
    pub walk: Walk,
    pub events: u64,
    pub steps: u64,
    pub ending: Ending,
}

// Words of a byte buffer

// The words of a table.
fn table_words(t: &[u8]) -> usize
    ensures { result ≡ size t.now }
{
    machine::count_words(t).min(base::TABLE_WORDS)
}

// The word at index i, from 0: `machine::word` without its test.
fn word(s: &[u8], i: usize) -> u16
    requires { i < count s.now }
    ensures { result ≡ word_at s.now i }
{
    u16::from_be_bytes([s[2 * i], s[2 * i + 1]])
}

// `buffers::put_word` writes the same. This one stays: the loop that it is put into is timed, and uses `machine` alone.
fn put_word(out: &mut [u8], i: usize, x: u16)
    requires { i < count out.old }
    ensures { out.new ≡ set_word out.old i x }
{
    let [high, low] = x.to_be_bytes();
    out[2 * i] = high;
    out[2 * i + 1] = low;
}

fn put_three(out: &mut [u8], i: usize, a: u16, b: u16, d: u16)
    requires { i + 3 ≤ count out.old }
    ensures { out.new ≡ set_word (set_word (set_word out.old i a) (i + 1) b) (i + 2) d }
{
    put_word(out, i, a);
    put_word(out, i + 1, b);
    put_word(out, i + 2, d);
}

// An event: its kind first.
pub fn put_event(out: &mut [u8], i: usize, e: Event)
    requires { i + 3 ≤ count out.old }
    ensures { out.new ≡ put_event out.old i e }
{
    match e {
        Event::Output(t) => put_three(out, i, machine::OUTPUT_EVENT, t, 0),
        Event::Error(n) => put_three(out, i, machine::ERROR_EVENT, n, 0),
        Event::Repair(t) => put_three(out, i, machine::REPAIR_EVENT, t, 0),
        Event::Plain(op) => put_three(out, i, machine::OPERATION_EVENT, op, 0),
        Event::With(op, v) => put_three(out, i, machine::OPERATION_EVENT, op, v),
    }
}

// The word at index i with its bytes exchanged: to the processor one load, where `word` is a load and an exchange.
fn swapped_word(s: &[u8], i: usize) -> u16
    requires { i < count s.now }
    ensures { result ≡ swapped (word_at s.now i) }
{
    u16::from_le_bytes([s[2 * i], s[2 * i + 1]])
}

// The words that instruction 1 to 13 takes. The constant table is lent, so that a fetch does not make it anew.
fn length_of(known: &[usize; LAST_PLAIN], ins: u16) -> usize
    requires { (known.now ≡ lengths) × (0 < ins) × (ins < 14) }
    ensures { result ≡ length_of ins }
{
    known[usize::from(ins) - 1]
}

// The registers of a fresh walk.
pub fn fresh(allowance: u16) -> Registers
    ensures { result ≡ fresh_at allowance }
{
    Registers {
        location: 1,
        depth: 0,
        result: 0,
        parameter: 0,
        read: 0,
        used: 0,
        allowance: u64::from(allowance),
    }
}

// One thing changed

impl Registers {
    fn moved(self, to: usize) -> Registers
        ensures { result ≡ moved self to }
    {
        Registers {
            location: to,
            ..self
        }
    }

    fn read_token(self) -> Registers
        requires { self.read + 1 < 2 ^ 64 }
        ensures { result ≡ read_one self }
    {
        Registers {
            read: self.read + 1,
            ..self
        }
    }

    // One repair less is left.
    fn spend(self) -> Registers
        requires { 0 < self.allowance }
        ensures { result ≡ spent_one self }
    {
        Registers {
            allowance: self.allowance - 1,
            ..self
        }
    }

    // Takes an answer: the result, and one more used, up to the greatest count.
    fn give_answer(self, x: u16) -> Registers
        ensures { result ≡ answered_one self x }
    {
        Registers {
            result: u64::from(x),
            used: self.used.saturating_add(1),
            ..self
        }
    }

    fn with_result(self, x: u16) -> Registers
        ensures { result ≡ with_result self x }
    {
        Registers {
            result: u64::from(x),
            ..self
        }
    }

    fn with_parameter(self, x: u16) -> Registers
        ensures { result ≡ with_parameter self x }
    {
        Registers {
            parameter: u64::from(x),
            ..self
        }
    }

    // Goes back behind a call.
    fn popped_to(self, to: usize) -> Registers
        requires { 0 < self.depth }
        ensures { result ≡ popped_to self to }
    {
        Registers {
            location: to,
            depth: self.depth - 1,
            ..self
        }
    }

    // One more return location is held.
    pub fn deeper(self) -> Registers
        requires { self.depth < 64 }
        ensures { result ≡ with_depth self (self.depth + 1) }
    {
        Registers {
            depth: self.depth + 1,
            ..self
        }
    }

    // More than 64 return locations are read as the first 64.
    fn clipped(self) -> Registers
        ensures { result ≡ first64 self }
    {
        Registers {
            depth: self.depth.min(PENDING),
            ..self
        }
    }
}

// Choices

// Where a choice goes that has no label for it: past its table, whose last word is the one at location end.
fn otherwise(n: usize, end: usize) -> Target
    requires { (n ≤ 4096) × (end ≤ n) }
    ensures { result ≡ otherwise_of n end }
{
    if end < n {
        Target::Otherwise(end + 1)
    } else {
        Target::Outside
    }
}

// The alternative of the label at index at.
fn label(t: &[u8], at: usize) -> Target
    requires { at + 2 ≤ size t.now }
    ensures { result ≡ label_of t.now at }
{
    let from = at + 2;
    let d = usize::from(word(t, at + 1));
    if d < from {
        Target::Label(from - d)
    } else {
        Target::Outside
    }
}

// Where a choice goes with x, by its labels. They are compared with their bytes exchanged, which spares one each.
// The place is counted by hand: this loop is timed, and a search by the label's number was slower (docs/DECISIONS.md, "Speed of the walker").
fn labelled(t: &[u8], n: usize, labels: Labels, x: u16) -> Target
    requires { (n ≡ size t.now) × (labels.first + 2 * labels.count ≤ n) }
    ensures { result ≡ labelled_of t.now labels.first labels.count x }
{
    let y = x.swap_bytes();
    let end = labels.first + 2 * labels.count;
    let mut at = labels.first;
    while at < end {
        if swapped_word(t, at) == y {
            return label(t, at);
        }
        at += 2;
    }
    otherwise(n, end)
}

// The labels of the choice at loc, if the table has all of them.
fn labels_of(t: &[u8], n: usize, loc: usize) -> Option<Labels>
    requires { (n ≡ size t.now) × (loc < n) }
    ensures whole { IfSome result (λ x. (x.first ≡ table_at t.now loc) × ((x.count ≡ labels_at t.now loc) × (x.first + 2 * x.count ≤ n))) }
    ensures outside { IfNone result ((g : Target) → Target.Outside ≡ inside_table t.now loc g) }
{
    let first = loc + 1 + usize::from(word(t, loc));
    if n < first {
        return None;
    }
    let count = usize::from(word(t, first - 1));
    if n < first + 2 * count {
        return None;
    }
    Some(Labels { first, count })
}

// Where the choice at loc goes with x.
fn choice_target(t: &[u8], n: usize, loc: usize, x: u16) -> Target
    requires { (n ≡ size t.now) × (loc < n) }
    ensures { result ≡ choice_of t.now loc x }
{
    match labels_of(t, n, loc) {
        Some(labels) => labelled(t, n, labels, x),
        None => Target::Outside,
    }
}

// Where the choice at loc goes with nothing to look for.
fn default_target(t: &[u8], n: usize, loc: usize) -> Target
    requires { (n ≡ size t.now) × (loc < n) }
    ensures { result ≡ default_of t.now loc }
{
    match labels_of(t, n, loc) {
        Some(labels) => otherwise(n, labels.first + 2 * labels.count),
        None => Target::Outside,
    }
}

// Instructions
//
// Each tests for itself that the table has all its words, and goes on behind them, by the length that it is handed: the number is known where the length is
// looked up, so that the compiler folds it. A test before the branch by number would be one more.

impl Registers {
    fn forward(self, t: &[u8], n: usize, len: usize) -> Next
        requires { (n ≡ size t.now) × (self.location ≤ n) × (len ≡ 2) }
        ensures { result ≡ in_full t.now 2 self (forward_of t.now self) }
    {
        let loc = self.location;
        if n < loc + len - 1 {
            return Next::Outside;
        }
        let to = loc + 1 + usize::from(word(t, loc));
        if to <= n {
            Next::On(self.moved(to))
        } else {
            Next::Outside
        }
    }

    fn back(self, t: &[u8], n: usize, len: usize) -> Next
        requires { (n ≡ size t.now) × (self.location ≤ n) × (len ≡ 2) }
        ensures { result ≡ in_full t.now 2 self (back_of t.now self) }
    {
        let loc = self.location;
        if n < loc + len - 1 {
            return Next::Outside;
        }
        let d = usize::from(word(t, loc));
        if d <= loc {
            Next::On(self.moved(loc + 1 - d))
        } else {
            Next::Outside
        }
    }

    // A required token that is not there: repaired while allowance is left.
    fn mend(self, t: &[u8], len: usize, room: usize) -> Next
        requires { (self.location < size t.now) × (len ≡ 2) }
        ensures { result ≡ mend_of t.now room self }
    {
        let loc = self.location;
        if 0 < low_word(self.allowance) {
            self.spend()
                .tell(room, loc + len, Event::Repair(word(t, loc)))
        } else {
            Next::Stop(Reason::Differs)
        }
    }

    fn input(self, t: &[u8], n: usize, len: usize, tokens: &[u8], room: usize) -> Next
        requires { (n ≡ size t.now) × (self.location ≤ n) × (len ≡ 2) }
        ensures { result ≡ in_full t.now 2 self (input_of t.now tokens.now room self) }
    {
        let loc = self.location;
        if n < loc + len - 1 {
            return Next::Outside;
        }
        let k = self.read as usize;
        if k < machine::count_words(tokens) && word(tokens, k) == word(t, loc) {
            Next::On(self.moved(loc + len).read_token())
        } else {
            self.mend(t, len, room)
        }
    }

    fn any(self, n: usize, len: usize, tokens: &[u8]) -> Next
        requires { (n ≤ 4096) × (self.location ≤ n) × (len ≡ 1) }
        ensures { result ≡ any_of tokens.now self }
    {
        let loc = self.location;
        if n < loc + len - 1 {
            return Next::Outside;
        }
        let k = self.read as usize;
        if k < machine::count_words(tokens) {
            Next::On(self.moved(loc + len).read_token())
        } else {
            Next::Stop(Reason::Missing)
        }
    }

    // An event, and on to a location.
    fn tell(self, room: usize, to: usize, e: Event) -> Next
        ensures { result ≡ tell_of room to e self }
    {
        if EVENT_WORDS <= room {
            Next::Tells(self.moved(to), e)
        } else {
            Next::Full
        }
    }

    fn output(self, t: &[u8], n: usize, len: usize, room: usize) -> Next
        requires { (n ≡ size t.now) × (self.location ≤ n) × (len ≡ 2) }
        ensures { result ≡ in_full t.now 2 self (tell_of room (self.location + 2) (Event.Output (word_at t.now self.location)) self) }
    {
        let loc = self.location;
        if n < loc + len - 1 {
            return Next::Outside;
        }
        self.tell(room, loc + len, Event::Output(word(t, loc)))
    }

    fn error(self, t: &[u8], n: usize, len: usize, room: usize) -> Next
        requires { (n ≡ size t.now) × (self.location ≤ n) × (len ≡ 2) }
        ensures { result ≡ in_full t.now 2 self (tell_of room (self.location + 2) (Event.Error (word_at t.now self.location)) self) }
    {
        let loc = self.location;
        if n < loc + len - 1 {
            return Next::Outside;
        }
        self.tell(room, loc + len, Event::Error(word(t, loc)))
    }

    fn set_result(self, t: &[u8], n: usize, len: usize) -> Next
        requires { (n ≡ size t.now) × (self.location ≤ n) × (len ≡ 2) }
        ensures { result ≡ in_full t.now 2 self (Next.On (with_result (moved self (self.location + 2)) (word_at t.now self.location))) }
    {
        let loc = self.location;
        if n < loc + len - 1 {
            return Next::Outside;
        }
        Next::On(self.moved(loc + len).with_result(word(t, loc)))
    }

    fn set_parameter(self, t: &[u8], n: usize, len: usize) -> Next
        requires { (n ≡ size t.now) × (self.location ≤ n) × (len ≡ 2) }
        ensures { result ≡ in_full t.now 2 self (Next.On (with_parameter (moved self (self.location + 2)) (word_at t.now self.location))) }
    {
        let loc = self.location;
        if n < loc + len - 1 {
            return Next::Outside;
        }
        Next::On(self.moved(loc + len).with_parameter(word(t, loc)))
    }

    // A choice that reads no token.
    fn take_other(self, g: Target) -> Next
        ensures { result ≡ take_other self g }
    {
        match g {
            Target::Label(to) | Target::Otherwise(to) => Next::On(self.moved(to)),
            Target::Outside => Next::Outside,
        }
    }

    fn choice(self, t: &[u8], n: usize, len: usize) -> Next
        requires { (n ≡ size t.now) × (self.location ≤ n) × (len ≡ 2) }
        ensures { result ≡ in_full t.now 2 self (take_other self (choice_of t.now self.location (self.result % 65536))) }
    {
        let loc = self.location;
        if n < loc + len - 1 {
            return Next::Outside;
        }
        self.take_other(choice_target(t, n, loc, low_word(self.result)))
    }

    fn input_choice(self, t: &[u8], n: usize, len: usize, tokens: &[u8]) -> Next
        requires { (n ≡ size t.now) × (self.location ≤ n) × (len ≡ 2) }
        ensures { result ≡ in_full t.now 2 self (input_choice_of t.now tokens.now self) }
    {
        let loc = self.location;
        if n < loc + len - 1 {
            return Next::Outside;
        }
        let k = self.read as usize;
        if k < machine::count_words(tokens) {
            let x = word(tokens, k);
            let g = choice_target(t, n, loc, x);
            match g {
                Target::Label(to) => Next::On(self.with_result(x).moved(to).read_token()),
                Target::Otherwise(to) => Next::On(self.with_result(x).moved(to)),
                Target::Outside => Next::Outside,
            }
        } else {
            self.take_other(default_target(t, n, loc))
        }
    }

    fn call(self, t: &[u8], n: usize, len: usize) -> Next
        requires { (n ≡ size t.now) × (self.location ≤ n) × (len ≡ 2) }
        ensures { result ≡ in_full t.now 2 self (call_of t.now self) }
    {
        let loc = self.location;
        if n < loc + len - 1 {
            return Next::Outside;
        }
        let to = usize::from(word(t, loc));
        if to == 0 || n < to {
            return Next::Outside;
        }
        if self.depth < PENDING {
            Next::Push(self.moved(to), (loc + len) as u16)
        } else {
            Next::Stop(Reason::Deep)
        }
    }

    fn back_to(self, n: usize, to: usize, t: &[u8]) -> Next
        requires { (n ≡ size t.now) × (0 < self.depth) }
        ensures { result ≡ back_to t.now to self }
    {
        if to == 0 || n < to {
            return Next::Outside;
        }
        Next::On(self.popped_to(to))
    }

    fn ret(self, returns: &[u16; PENDING], t: &[u8], n: usize, len: usize) -> Next
        requires { (n ≡ size t.now) × (self.location ≤ n) × (len ≡ 1) × (self.depth ≤ 64) }
        ensures { result ≡ return_of returns.now t.now self }
    {
        if n < self.location + len - 1 {
            return Next::Outside;
        }
        let d = self.depth;
        if d == 0 {
            return Next::Stop(Reason::Finished);
        }
        self.back_to(n, usize::from(returns[d - 1]), t)
    }

    fn end_choice(self, n: usize, len: usize) -> Next
        requires { (n ≤ 4096) × (self.location ≤ n) × (len ≡ 1) }
        ensures { result ≡ Next.Stop Reason.Unlabelled }
    {
        if n < self.location + len - 1 {
            return Next::Outside;
        }
        Next::Stop(Reason::Unlabelled)
    }

    // An operation without an answer.
    fn update(self, n: usize, len: usize, room: usize, e: Event) -> Next
        requires { (n ≤ 4096) × (self.location ≤ n) × (len ≡ 1) }
        ensures { result ≡ tell_of room (self.location + 1) e self }
    {
        let loc = self.location;
        if n < loc + len - 1 {
            return Next::Outside;
        }
        self.tell(room, loc + len, e)
    }

    // A choice operation: handed out by a paused walk, else with the next of the answers.
    fn answer(
        self,
        n: usize,
        len: usize,
        room: usize,
        paused: bool,
        answers: &[u8],
        e: Event,
    ) -> Next
        requires { (n ≤ 4096) × (self.location ≤ n) × (len ≡ 1) }
        ensures { result ≡ answer_of room paused answers.now e self }
    {
        let loc = self.location;
        if n < loc + len - 1 {
            return Next::Outside;
        }
        let k = self.used as usize;
        if room < EVENT_WORDS {
            return Next::Full;
        }
        if paused {
            return Next::Waits(self.moved(loc + len), e);
        }
        if k < machine::count_words(answers) {
            Next::Tells(self.moved(loc + len).give_answer(word(answers, k)), e)
        } else {
            Next::Stop(Reason::Unanswered)
        }
    }
}

// Steps

// What a step may do: write so many words of events, and wait for an answer.
#[derive(Clone, Copy, Debug, PartialEq, Eq)]
pub struct Terms {
    pub room: usize,
    pub pause: bool,
}

// The same, with the instruction that was fetched and the words of the table.
#[derive(Clone, Copy, Debug, PartialEq, Eq)]
struct Due {
    n: usize,
    room: usize,
    paused: bool,
    ins: u16,
}

impl Registers {
    // What the instruction of this number does, at a location of the table. 0 has an arm so that the branch by number begins there.
    fn act(
        self,
        known: &[usize; LAST_PLAIN],
        returns: &[u16; PENDING],
        t: &[u8],
        tokens: &[u8],
        answers: &[u8],
        x: Due,
    ) -> Next
        requires { (known.now ≡ lengths) × (x.n ≡ size t.now) × (self.location ≤ x.n) × (self.depth ≤ 64) }
        ensures { result ≡ fetched_of returns.now t.now tokens.now answers.now x.room x.paused x.ins self }
    {
        let n = x.n;
        let room = x.room;
        let ins = x.ins;
        match ins {
            JUMP_FORWARD => self.forward(t, n, length_of(known, JUMP_FORWARD)),
            JUMP_BACK => self.back(t, n, length_of(known, JUMP_BACK)),
            INPUT => self.input(t, n, length_of(known, INPUT), tokens, room),
            INPUT_ANY => self.any(n, length_of(known, INPUT_ANY), tokens),
            EMIT => self.output(t, n, length_of(known, EMIT), room),
            ERROR => self.error(t, n, length_of(known, ERROR), room),
            INPUT_CHOICE => self.input_choice(t, n, length_of(known, INPUT_CHOICE), tokens),
            CALL => self.call(t, n, length_of(known, CALL)),
            RETURN => self.ret(returns, t, n, length_of(known, RETURN)),
            SET_RESULT => self.set_result(t, n, length_of(known, SET_RESULT)),
            CHOICE => self.choice(t, n, length_of(known, CHOICE)),
            END_CHOICE => self.end_choice(n, length_of(known, END_CHOICE)),
            SET_PARAMETER => self.set_parameter(t, n, length_of(known, SET_PARAMETER)),
            0 => Next::Outside,
            _ => self.operate(n, answers, room, x.paused, ins),
        }
    }

    // What an operation does.
    fn operate(self, n: usize, answers: &[u8], room: usize, paused: bool, ins: u16) -> Next
        requires { (n ≤ 4096) × (self.location ≤ n) }
        ensures { result ≡ operate_of room paused answers.now ins self }
    {
        let len = machine::instruction_length(ins);
        let plain = Event::Plain(ins);
        let with = Event::With(ins, low_word(self.parameter));
        match ins {
            UPDATE..UPDATE_WITH => self.update(n, len, room, plain),
            UPDATE_WITH..ASK => self.update(n, len, room, with),
            ASK..ASK_WITH => self.answer(n, len, room, paused, answers, plain),
            ASK_WITH..PAST_OPERATIONS => self.answer(n, len, room, paused, answers, with),
            _ => Next::Outside,
        }
    }

    // One step of a walk that goes on.
    pub fn next(
        self,
        known: &[usize; LAST_PLAIN],
        returns: &[u16; PENDING],
        t: &[u8],
        tokens: &[u8],
        answers: &[u8],
        terms: Terms,
    ) -> Next
        requires { (known.now ≡ lengths) × (self.depth ≤ 64) }
        ensures { result ≡ step_of returns.now t.now tokens.now answers.now terms.room terms.pause self }
    {
        let n = table_words(t);
        let at = self.location;
        if at == 0 || n < at {
            return Next::Outside;
        }
        let x = Due {
            n,
            room: terms.room,
            paused: terms.pause,
            ins: word(t, at - 1),
        };
        self.act(known, returns, t, tokens, answers, x)
    }
}

// The number of the instruction at loc: 0, which is none, outside the table.
fn fetched(t: &[u8], n: usize, loc: usize) -> u16
    requires { n ≡ size t.now }
    ensures { result ≡ number_at t.now loc }
{
    if loc == 0 || n < loc {
        return 0;
    }
    word(t, loc - 1)
}

// Steps of a walk
//
// Each takes the walk and gives the walk back. The loop of the calls, `Walk::go`, does the same with registers and return locations apart, which is faster
// (docs/DECISIONS.md); `repeats` in proofs/Steps.antt says that it is these steps repeated.

impl Walk {
    fn with_registers(self, at: Registers) -> Walk
        ensures { result ≡ with_at self at }
    {
        Walk { at, ..self }
    }

    fn in_phase(self, phase: Phase) -> Walk
        ensures { result ≡ in_phase self phase }
    {
        Walk { phase, ..self }
    }

    fn read_token(self) -> Walk
        requires { self.at.read + 1 < 2 ^ 64 }
        ensures { result ≡ token_read self }
    {
        self.with_registers(self.at.read_token())
    }

    // One more return location, above those that it holds.
    fn push(mut self, back: u16) -> Walk
        requires { self.at.depth < 64 }
        ensures { result ≡ pushed self back }
    {
        let d = self.at.depth;
        self.returns[d] = back;
        self.at.depth = d + 1;
        self
    }

    // Goes back to the newest of its return locations.
    fn ret(self) -> Walk
        requires { (0 < self.at.depth) × (self.at.depth ≤ 64) }
        ensures { result ≡ returned self }
    {
        let back = self.returns[self.at.depth - 1];
        self.with_registers(self.at.popped_to(usize::from(back)))
    }

    // Takes the answer that it waited for, and goes on.
    fn give_answer(self, x: u16) -> Walk
        ensures { result ≡ answered self x }
    {
        self.with_registers(self.at.give_answer(x))
            .in_phase(Phase::Going)
    }

    fn says(self, said: Said) -> Stepped
        ensures { result ≡ says self said }
    {
        Stepped { walk: self, said }
    }
}

impl Walk {
    // What an instruction does to the walk.
    fn took(self, x: Next) -> Stepped
        requires { Holds x }
        ensures { result ≡ took_of self x }
    {
        match x {
            Next::Full => self.says(Said::Undone(Ending::Full)),
            Next::Outside => self
                .in_phase(Phase::Stopped(Reason::Outside))
                .says(Said::Undone(Ending::Stopped(Reason::Outside))),
            Next::Stop(why) => self.in_phase(Phase::Stopped(why)).says(Said::Stops(why)),
            Next::On(q) => self.with_registers(q).says(Said::On),
            Next::Tells(q, e) => self.with_registers(q).says(Said::Tells(e)),
            Next::Push(q, back) => self.with_registers(q).push(back).says(Said::On),
            Next::Waits(q, e) => self
                .with_registers(q)
                .in_phase(Phase::Waiting)
                .says(Said::Hands(e)),
        }
    }

    // An input_any: reads the present token.
    fn step_any(self, n: usize, len: usize, tokens: &[u8]) -> Stepped
        requires { (n ≤ 4096) × (self.at.location ≤ n) × (len ≡ 1) }
        ensures { result ≡ took_of self (any_of tokens.now self.at) }
    {
        let at = self.at;
        let loc = at.location;
        if n < loc + len - 1 {
            return self.took(Next::Outside);
        }
        let k = at.read as usize;
        if k < machine::count_words(tokens) {
            self.with_registers(at.moved(loc + len))
                .read_token()
                .says(Said::On)
        } else {
            self.took(Next::Stop(Reason::Missing))
        }
    }

    // A return: to the newest return location, which is tested here.
    fn step_return(self, t: &[u8], n: usize, len: usize) -> Stepped
        requires { (n ≡ size t.now) × (self.at.location ≤ n) × (len ≡ 1) × (self.at.depth ≤ 64) }
        ensures { result ≡ took_of self (return_of self.returns t.now self.at) }
    {
        let at = self.at;
        if n < at.location + len - 1 {
            return self.took(Next::Outside);
        }
        if at.depth == 0 {
            return self.took(Next::Stop(Reason::Finished));
        }
        let w = self.ret();
        let to = w.at.location;
        if to == 0 || n < to {
            return self.took(Next::Outside);
        }
        w.says(Said::On)
    }

    // One step of a walk that goes on. An instruction that is not done here changes registers, or pushes.
    fn next(self, t: &[u8], tokens: &[u8], answers: &[u8], room: usize, pause: bool) -> Stepped
        requires { self.at.depth ≤ 64 }
        ensures { result ≡ next_of t.now tokens.now answers.now room pause self }
    {
        let known = machine::LENGTHS;
        let n = table_words(t);
        let at = self.at;
        let returns = self.returns;
        let ins = fetched(t, n, at.location);
        match ins {
            INPUT_ANY => self.step_any(n, length_of(&known, INPUT_ANY), tokens),
            RETURN => self.step_return(t, n, length_of(&known, RETURN)),
            _ => self.took(at.next(&known, &returns, t, tokens, answers, Terms { room, pause })),
        }
    }

    // One step of any walk, with room for so many words of events.
    pub fn step(self, t: &[u8], tokens: &[u8], answers: &[u8], room: usize, paused: bool) -> Stepped
        ensures { result ≡ walk_step_of t.now tokens.now answers.now room paused self self.phase }
    {
        match self.phase {
            Phase::Going => self.clipped().next(t, tokens, answers, room, paused),
            Phase::Waiting => self.says(Said::Undone(Ending::Refused)),
            Phase::Stopped(why) => self.says(Said::Undone(Ending::Stopped(why))),
        }
    }
}

// Calls

// What a call gives that leaves this walk. (With registers and return locations as parameters the loop would be slower.)
fn ended(walk: Walk, events: usize, steps: u64, ending: Ending) -> Called
    ensures { result ≡ called walk events steps ending }
{
    Called {
        walk,
        events: events as u64,
        steps,
        ending,
    }
}

// What a call gives that does nothing: the walk as it is.
fn undone(walk: Walk, ending: Ending) -> Called
    ensures { result ≡ called walk 0 0 ending }
{
    ended(walk, 0, 0, ending)
}

// A call: one return location more is held.
pub fn hold(returns: &mut [u16; PENDING], q: Registers, back: u16) -> Registers
    requires { q.depth < 64 }
    ensures value { result ≡ with_depth q (q.depth + 1) }
    ensures returns_after { returns.new ≡ set returns.old q.depth back }
{
    let d = q.depth;
    returns[d] = back;
    q.deeper()
}

impl Walk {
    // Its registers as they are read.
    fn clipped(self) -> Walk
        ensures { (result.phase ≡ self.phase) × (result.at ≡ first64 self.at) × (result.returns ≡ self.returns) }
    {
        self.with_registers(self.at.clipped())
    }

    // It stops for good, and its call ends.
    fn stopped(self, why: Reason, events: usize, steps: u64) -> Called
        ensures { result ≡ called (in_phase self (Stopped why)) events steps (Ending.Stopped why) }
    {
        ended(
            self.in_phase(Phase::Stopped(why)),
            events,
            steps,
            Ending::Stopped(why),
        )
    }

    // The end of a call, with a step x that does not go on.
    fn last(self, x: Next, events: usize, steps: u64, out: &mut [u8]) -> Called
        requires { Ends (count out.old - 3 * events) x × (steps + 1 < 2 ^ 64) }
        ensures { outcome result.walk out.new result.events result.steps (ending_number result.ending) ≡ last_of (took_of self x) out.old events steps }
    {
        match x {
            Next::Outside => self.stopped(Reason::Outside, events, steps),
            Next::Stop(why) => self.stopped(why, events, steps + 1),
            Next::Waits(q, e) => {
                put_event(out, EVENT_WORDS * events, e);
                let walk = self.with_registers(q).in_phase(Phase::Waiting);
                ended(walk, events + 1, steps + 1, Ending::Waits)
            }
            // the one that is left: no room
            _ => ended(self, events, steps, Ending::Full),
        }
    }

    // Up to budget steps of a walk that goes on.
    fn go(
        self,
        t: &[u8],
        tokens: &[u8],
        answers: &[u8],
        pause: bool,
        budget: u64,
        out: &mut [u8],
    ) -> Called
        requires { self.at.depth ≤ 64 }
        ensures walk_value { result.walk ≡ (go_of t.now tokens.now answers.now pause budget self.at self.returns out.old 0 0).walk }
        ensures events_value { result.events ≡ (go_of t.now tokens.now answers.now pause budget self.at self.returns out.old 0 0).events }
        ensures steps_value { result.steps ≡ (go_of t.now tokens.now answers.now pause budget self.at self.returns out.old 0 0).steps }
        ensures number_value { ending_number result.ending ≡ (go_of t.now tokens.now answers.now pause budget self.at self.returns out.old 0 0).number }
        ensures out_after { out.new ≡ (go_of t.now tokens.now answers.now pause budget self.at self.returns out.old 0 0).out }
    {
        let phase = Phase::Going;
        let mut at = self.at;
        let mut returns = self.returns;
        let mut events: usize = 0;
        let mut done: u64 = 0;
        // words left for events
        let mut room = machine::count_words(out);
        let known = machine::LENGTHS;
        // the loop that docs/DECISIONS.md measures: a range is not tried
        while done < budget {
            let x = at.next(&known, &returns, t, tokens, answers, Terms { room, pause });
            match x {
                Next::On(q) => at = q,
                Next::Tells(q, e) => {
                    put_event(out, EVENT_WORDS * events, e);
                    at = q;
                    events += 1;
                    room -= EVENT_WORDS;
                }
                Next::Push(q, back) => at = hold(&mut returns, q, back),
                _ => return Walk { phase, at, returns }.last(x, events, done, out),
            }
            done += 1;
        }
        ended(Walk { phase, at, returns }, events, done, Ending::Spent)
    }

    // A whole walk's call: up to budget steps, with all answers given. `whole_of` has the code's own order; `whole-call` in proofs/Link.antt says that it is
    // the machine's `call_walk`, and `repeats` in proofs/Steps.antt that it is `step` repeated.
    pub fn whole(
        self,
        table: &[u8],
        tokens: &[u8],
        answers: &[u8],
        budget: u64,
        events: &mut [u8],
    ) -> Called
        ensures walk_value { result.walk ≡ (whole_of table.now tokens.now answers.now budget self events.old self.phase).walk }
        ensures events_value { result.events ≡ (whole_of table.now tokens.now answers.now budget self events.old self.phase).events }
        ensures steps_value { result.steps ≡ (whole_of table.now tokens.now answers.now budget self events.old self.phase).steps }
        ensures number_value { ending_number result.ending ≡ (whole_of table.now tokens.now answers.now budget self events.old self.phase).number }
        ensures events_after { events.new ≡ (whole_of table.now tokens.now answers.now budget self events.old self.phase).out }
    {
        match self.phase {
            Phase::Going => self
                .clipped()
                .go(table, tokens, answers, false, budget, events),
            Phase::Waiting => undone(self, Ending::Refused),
            Phase::Stopped(why) => undone(self, Ending::Stopped(why)),
        }
    }

    // A paused walk's call: with an answer if the walk waits for one. It looks at no answers, so that its tokens stand in for them. For `paused_of` the same
    // is said by `paused-call` and `repeats`.
    pub fn paused(
        self,
        table: &[u8],
        tokens: &[u8],
        answer: Option<u16>,
        budget: u64,
        events: &mut [u8],
    ) -> Called
        ensures walk_value { result.walk ≡ (paused_of table.now tokens.now answer budget self events.old self.phase).walk }
        ensures events_value { result.events ≡ (paused_of table.now tokens.now answer budget self events.old self.phase).events }
        ensures steps_value { result.steps ≡ (paused_of table.now tokens.now answer budget self events.old self.phase).steps }
        ensures number_value { ending_number result.ending ≡ (paused_of table.now tokens.now answer budget self events.old self.phase).number }
        ensures events_after { events.new ≡ (paused_of table.now tokens.now answer budget self events.old self.phase).out }
    {
        match (self.phase, answer) {
            (Phase::Going, None) => self
                .clipped()
                .go(table, tokens, tokens, true, budget, events),
            (Phase::Going, Some(_)) => undone(self, Ending::Refused),
            (Phase::Waiting, None) => undone(self, Ending::Refused),
            (Phase::Waiting, Some(word)) => self
                .clipped()
                .give_answer(word)
                .go(table, tokens, tokens, true, budget, events),
            (Phase::Stopped(why), None) => undone(self, Ending::Stopped(why)),
            (Phase::Stopped(_), Some(_)) => undone(self, Ending::Refused),
        }
    }
}
