// The targets of an exercise, and the events of its rounds.
ghost use Rattle.std.specs.Prelude.{◌≡◌, ◌++◌, ◌∷◌, ◌+◌, ◌*◌, ◌<◌, ◌≤◌, ◌^◌, [], IfOk, OnOk};
ghost use Rattle.pr_exercise.specs.Exercise.{body_of, count_after, counted, divides, drawn, eval_at, exercise_file, exercise_name, next_number, opening, reload_at, target, target_event, targets_from, turn_at, turn_events};
ghost use Rattle.pr_exercise.specs.private.Turns.{AreWithin};

use pr_outside::words_crate::{Items, Text};
use pr_text::labels::{Labels, Pair};
use pr_text::time::Ms;
use pr_text::world::{Event, NamedFile};
use std::alloc::{AllocError, Global};

const FILE: &[u8] =
    b"groups:\n- name: g\n  interval: 30s\n  rules:\n  - record: job:requests:rate\n    expr: sum by (job) (rate(requests_total[5m]))\n  - record: job:temp:max\n    expr: max by (job) (max_over_time(temp[10m]))\n  - alert: Hot\n    expr: job:temp:max > 90\n    for: 2m\n";

#[tactic(auto, unfolding(crate::specs::Exercise::exercise_file))]
fn file() -> &'static [u8]
    ensures { result.now ≡ exercise_file }
{
    FILE
}

#[tactic(auto, unfolding(crate::specs::Exercise::exercise_name))]
fn file_name(alloc: Global) -> Result<Text, AllocError>
    ensures { IfOk result (λ t. t ≡ exercise_name) }
{
    Text::from_str(alloc, "exercise.yml")
}

// The reload of the rules of an exercise.
fn reload(alloc: Global, time: Ms) -> Result<Event, AllocError>
    ensures { IfOk result (λ e. e ≡ reload_at time) }
{
    let mut files = Vec::new(alloc);
    files.push(NamedFile {
        name: file_name(alloc)?,
        bytes: Items::new(file().to_vec(alloc)?),
    })?;
    Ok(Event::Reload {
        time,
        files: Items::new(files),
    })
}

fn evaluation(alloc: Global, time: Ms) -> Result<Event, AllocError>
    ensures { IfOk result (λ e. e ≡ eval_at time) }
{
    Ok(Event::Eval {
        time,
        file: file_name(alloc)?,
        group: Text::from_str(alloc, "g")?,
    })
}

// The number that is drawn from next: as C's `rand` has it, so that any machine draws the same.
fn next_number(number: u32) -> u32
    ensures { result ≡ next_number number }
{
    ((1_103_515_245 * u64::from(number) + 12_345) % (1 << 31)) as u32
}

fn divides(divisor: u32, draw: u32) -> bool
    requires { 0 < divisor }
    ensures { result ≡ divides divisor draw }
{
    draw % divisor == 0
}

// Whether a target does not answer.
fn is_silent(draw: u32) -> bool
    ensures { result ≡ divides 50 draw }
{
    divides(50, draw)
}

// What a target that answers has counted then.
fn counted(count: u64, draw: u32) -> u64
    requires { count < 2 ^ 63 }
    ensures value { result ≡ counted count draw }
    ensures few { result ≤ count + 99 }
{
    if divides(97, draw) {
        0
    } else {
        count + u64::from(draw % 100)
    }
}

fn count_after(count: u64, draw: u32) -> u64
    requires { count < 2 ^ 63 }
    ensures value { result ≡ count_after count draw }
    ensures few { result ≤ count + 99 }
{
    if is_silent(draw) {
        count
    } else {
        counted(count, draw)
    }
}

fn pair(alloc: Global, name: &str, value: Text) -> Result<Pair, AllocError>
    ensures { IfOk result (λ p. (p.name ≡ name.now) × (p.value ≡ value)) }
{
    Ok(Pair {
        name: Text::from_str(alloc, name)?,
        value,
    })
}

fn pairs(alloc: Global, index: u64) -> Result<Vec<Pair>, AllocError>
    ensures { IfOk result (λ v. v.items ≡ target index) }
{
    let mut pairs = Vec::new(alloc);
    pairs.push(pair(alloc, "instance", Text::new(format!(in alloc; "{index}")?))?)?;
    pairs.push(pair(alloc, "job", Text::from_str(alloc, "e")?)?)?;
    Ok(pairs)
}

// The labels of a target.
#[tactic(auto, using(crate::proofs::Turns::labels_are))]
fn target(alloc: Global, index: u64) -> Result<Labels, AllocError>
    ensures { IfOk result (λ l. l ≡ target index) }
{
    Labels::from_distinct(pairs(alloc, index)?)
}

// What a target offers that has counted so many requests.
fn body(alloc: Global, count: u64, draw: u32) -> Result<Items<u8>, AllocError>
    ensures { IfOk result (λ b. b ≡ body_of count draw) }
{
    let temperature = draw / 128 % 100;
    let text = format!(in alloc; "requests_total {count}\ntemp {temperature}\n")?;
    Ok(Items::new(text.into_bytes()))
}

// What happens to a target.
fn target_event(
    alloc: Global,
    time: Ms,
    index: u64,
    count: u64,
    draw: u32,
) -> Result<Event, AllocError>
    requires { count < 2 ^ 63 }
    ensures { IfOk result (λ e. e ≡ target_event time index count draw) }
{
    let target = target(alloc, index)?;
    if is_silent(draw) {
        return Ok(Event::Fail { time, target });
    }
    Ok(Event::Scrape {
        time,
        target,
        body: body(alloc, counted(count, draw), draw)?,
    })
}

// A round is half a minute.
fn time_of(round: u32) -> Ms
    requires { round ≤ 100000 }
    ensures { result ≡ 30000 * round }
{
    match Ms::new(30_000 * u64::from(round)) {
        Some(time) => time,
        None => unreachable!(),
    }
}

// What a round begins with.
fn push_opening(
    alloc: Global,
    events: &mut Vec<Event>,
    round: u32,
    time: Ms,
) -> Result<(), AllocError>
    ensures { OnOk result (events.new.items ≡ events.old.items ++ opening round time) }
{
    if round > 0 && divides(1_000, round) {
        events.push(Event::Restart { time })?;
        events.push(reload(alloc, time)?)?;
    } else if round > 0 && divides(100, round) {
        events.push(reload(alloc, time)?)?;
    }
    Ok(())
}

/// What an exercise begins with.
pub(crate) fn first_reload(alloc: Global) -> Result<Event, AllocError>
    ensures { IfOk result (λ e. e ≡ reload_at 0) }
{
    reload(alloc, time_of(0))
}

/// The targets: the number that they draw from, and what each has counted.
#[derive(Drop)]
pub(crate) struct Targets {
    number: u32,
    counts: Vec<u64>,
}

impl Targets {
    /// Four targets that have counted nothing yet, which draw from a number.
    pub(crate) fn new(alloc: Global, number: u32) -> Result<Targets, AllocError>
        ensures number { IfOk result (λ t. t.number ≡ number) }
        ensures counts { IfOk result (λ t. t.counts.items ≡ 0 ∷ 0 ∷ 0 ∷ 0 ∷ []) }
    {
        Ok(Targets {
            number,
            counts: vec![in alloc; 0, 0, 0, 0]?,
        })
    }

    // Each target is scraped in turn.
    fn scrape(
        &mut self,
        alloc: Global,
        events: &mut Vec<Event>,
        round: u32,
        time: Ms,
    ) -> Result<(), AllocError>
        requires small { AreWithin round self.old.counts.items }
        requires few { round ≤ 100000 }
        ensures events { OnOk result (events.new.items ≡ events.old.items ++ (targets_from time 0 self.old.number self.old.counts.items).events) }
        ensures number { OnOk result (self.new.number ≡ (targets_from time 0 self.old.number self.old.counts.items).number) }
        ensures counts { OnOk result (self.new.counts.items ≡ (targets_from time 0 self.old.number self.old.counts.items).counts) }
    {
        let mut counts = Vec::new(alloc);
        let mut index = 0;
        let mut number = self.number;
        let mut rest = self.counts.as_slice();
        'scraping: while let Some((count, after)) = rest.split_first() {
            number = next_number(number);
            let draw = number / 65_536;
            events.push(target_event(alloc, time, index, *count, draw)?)?;
            counts.push(count_after(*count, draw))?;
            index += 1;
            rest = after;
        }
        self.number = number;
        self.counts = counts;
        Ok(())
    }

    /// The events of a round, in which each target draws once.
    pub(crate) fn round(&mut self, alloc: Global, round: u32) -> Result<Vec<Event>, AllocError>
        requires small { AreWithin round self.old.counts.items }
        requires few { round ≤ 100000 }
        ensures events { IfOk result (λ v. v.items ≡ turn_events round (turn_at round self.old.number self.old.counts.items)) }
        ensures number { OnOk result (self.new.number ≡ (turn_at round self.old.number self.old.counts.items).number) }
        ensures counts { OnOk result (self.new.counts.items ≡ (turn_at round self.old.number self.old.counts.items).counts) }
        ensures small { OnOk result (AreWithin (round + 1) self.new.counts.items) }
    {
        let time = time_of(round);
        let mut events = Vec::new(alloc);
        push_opening(alloc, &mut events, round, time)?;
        self.scrape(alloc, &mut events, round, time)?;
        events.push(evaluation(alloc, time)?)?;
        Ok(events)
    }
}
