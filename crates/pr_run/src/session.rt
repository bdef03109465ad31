// A run of the script, order by order.
ghost use Rattle.std.specs.Prelude.{◌≡◌, ◌++◌, ◌||◌, ℕ, List, [], length, nat_lt, false, true, Some, IfSome, IfNone, IsSome, OnOk, IfErr};
ghost use Rattle.pr_queue.specs.spec_alerts.Receivers.{Receiver};
ghost use Rattle.pr_queue.specs.private.Standing as waiting;
ghost use Rattle.pr_outside.specs.Ends.{Ends};
ghost use Rattle.pr_outside.specs.Outside.{AreTold, Held, Outside};
ghost use Rattle.pr_text.specs.spec_world.private.Laws.{IsNotBefore, is_refusal, HasDistinctFiles};
ghost use Rattle.pr_text.specs.spec_world.Settings.{of_a_run};
ghost use Rattle.pr_text.specs.spec_world.Loading.{reload_asked};
ghost use Rattle.pr_text.specs.spec_world.Step.{next};
ghost use Rattle.pr_text.specs.spec_world.World.{World};
ghost use Rattle.pr_text.specs.Printed.{shown_report};
ghost use Rattle.pr_text.specs.declared.script.order.Order.TheVariants as order;
ghost use Rattle.pr_text.specs.private.Plain.{HasNoFiles, IsPlain};
ghost use Rattle.pr_run.specs.private.Keeping.{KeepsProgress, Progress};
ghost use Rattle.pr_run.specs.Replies.{bad_line_reply, flush_reply, receiver_reply, receivers_after};
ghost use Rattle.pr_outside.specs.Stores.{IsBadIn, KeepsTelling};
ghost use Rattle.pr_run.specs.private.Standing.{AnswersOrder, WorldGives, StoreGrows, LeavesFront, ReceiversReply};
ghost use Rattle.pr_run.specs.Told.{asks_for, asks_in_time, content_by, turn};

use crate::files::load_files;
use crate::receivers::{is_not_new, notify};
use pr_ast::time::Ms;
use pr_outside::status::Stop;
use pr_outside::{Files, Keeper};
use pr_queue::Notifier;
use pr_text::script::{FilesToLoad, Numbered, Order};
use pr_text::world::{Event, Report};
use pr_text::{Worlds, push_bad_line, push_batch, push_joined, push_no_receiver, push_report};
use std::alloc::{AllocError, Global};
use std::marker::Model;

// The time of the last event, where another time is before it.
fn last_behind(last: Option<Ms>, time: Ms) -> Option<Ms>
    ensures some { IfSome result (λ l. (last ≡ Some l) × (nat_lt time l ≡ true)) }
    ensures none { IfNone result (IsNotBefore last time) }
{
    match last {
        Some(last) if time.get() < last.get() => Some(last),
        _ => None,
    }
}

/// A run of the script. Contracts see what it keeps.
#[derive(Drop)]
pub(crate) struct Session<E> {
    kept: E,
    notifier: Notifier,
    refused: bool,
}

impl<E> Model for Session<E> {
    ghost use Rattle.pr_run.specs.private.Keeping.{Run};

    ghost Value = { Run E };

    ghost view = { λ s. record { kept = s.kept; queues = s.notifier; refused = s.refused } };
}

impl<E: Worlds + Drop> Session<E> {
    /// No order has come yet.
    pub(crate) fn new(alloc: Global, kept: E) -> Session<E>
        ensures kept { result.kept ≡ kept }
        ensures refused { result.refused ≡ false }
        ensures receivers { waiting.StandsFor result.queues [] }
    {
        Session {
            kept,
            notifier: Notifier::new(alloc),
            refused: false,
        }
    }

    /// Whether an order was refused.
    pub(crate) fn has_refused(&self) -> bool
        ensures { result ≡ self.now.refused }
    {
        self.refused
    }

    // Takes an event.
    fn take_event<K: Keeper>(
        &mut self,
        alloc: Global,
        event: Event,
        keeper: &mut K,
    ) -> Result<Report, Stop>
        requires files { HasDistinctFiles event }
        requires going { E.is_going self.old.kept }
        ensures gives { (others : Outside) (w : World) → E.stands_for self.old.kept (K.means keeper.old) w → IsSome (K.means keeper.new).rows
            → WorldGives E.stands_for w (next of_a_run w event) 0 (record others { store = K.means keeper.old }) (record others { store = K.means keeper.new }) self.new.kept result }
        ensures refused { self.new.refused ≡ self.old.refused }
        ensures queues { self.new.queues ≡ self.old.queues }
        ensures grows { (w : World) → E.stands_for self.old.kept (K.means keeper.old) w → IsSome (K.means keeper.new).rows → StoreGrows E.stands_for w.history (K.means keeper.new) self.new.kept result }
        ensures going { OnOk result (E.is_going self.new.kept) }
        ensures tells { KeepsTelling (K.means keeper.old) (K.means keeper.new) result }
        ensures told { IsSome (K.means keeper.new).rows → IsSome (K.means keeper.old).rows }
        ensures paths { (K.means keeper.new).paths ≡ (K.means keeper.old).paths }
        ensures ends { (others : Outside) → Ends (IsBadIn (K.means keeper.new)) ⊥ (record others { store = K.means keeper.old }) (record others { store = K.means keeper.new }) result }
    {
        self.kept.answer(alloc, keeper, event)
    }

    // Loads files whose time is not before that of the last event, and takes them.
    fn take_files<F: Files, K: Keeper>(
        &mut self,
        alloc: Global,
        time: Ms,
        names: &FilesToLoad,
        files: &mut F,
        keeper: &mut K,
    ) -> Result<Report, Stop>
        requires going { E.is_going self.old.kept }
        ensures gives { (others : Outside) (held : Held) (w : World) → E.stands_for self.old.kept (K.means keeper.old) w → IsNotBefore w.last time
            → AreTold (F.means files.old).content held (asks_for (content_by held) names.now) → IsSome (K.means keeper.new).rows
            → WorldGives E.stands_for w (reload_asked of_a_run w time (content_by held) names.now) (length (asks_for (content_by held) names.now))
            (record others { files = F.means files.old; store = K.means keeper.old }) (record others { files = F.means files.new; store = K.means keeper.new }) self.new.kept result }
        ensures refused { self.new.refused ≡ self.old.refused }
        ensures queues { self.new.queues ≡ self.old.queues }
        ensures grows { (w : World) → E.stands_for self.old.kept (K.means keeper.old) w → IsSome (K.means keeper.new).rows → StoreGrows E.stands_for w.history (K.means keeper.new) self.new.kept result }
        ensures going { OnOk result (E.is_going self.new.kept) }
        ensures tells { KeepsTelling (K.means keeper.old) (K.means keeper.new) result }
        ensures told { IsSome (K.means keeper.new).rows → IsSome (K.means keeper.old).rows }
        ensures same { (other : List ℕ) → (F.means files.new).content other ≡ (F.means files.old).content other }
        ensures paths { (K.means keeper.new).paths ≡ (K.means keeper.old).paths }
        ensures ends { (others : Outside) → Ends (IsBadIn (K.means keeper.new)) ⊥ (record others { files = F.means files.old; store = K.means keeper.old })
            (record others { files = F.means files.new; store = K.means keeper.new }) result }
    {
        match load_files(alloc, names.as_slice(), files)? {
            Ok(files) => self.take_event(alloc, Event::Reload { time, files }, keeper),
            Err(refusal) => Ok(refusal),
        }
    }

    // Takes a reload. Its time is looked at before its files are.
    fn take_reload<F: Files, K: Keeper>(
        &mut self,
        alloc: Global,
        time: Ms,
        names: &FilesToLoad,
        files: &mut F,
        keeper: &mut K,
    ) -> Result<Report, Stop>
        requires going { E.is_going self.old.kept }
        ensures gives { (others : Outside) (held : Held) (w : World) → E.stands_for self.old.kept (K.means keeper.old) w
            → AreTold (F.means files.old).content held (asks_in_time w.last time (asks_for (content_by held) names.now)) → IsSome (K.means keeper.new).rows
            → WorldGives E.stands_for w (reload_asked of_a_run w time (content_by held) names.now) (length (asks_in_time w.last time (asks_for (content_by held) names.now)))
            (record others { files = F.means files.old; store = K.means keeper.old }) (record others { files = F.means files.new; store = K.means keeper.new }) self.new.kept result }
        ensures refused { self.new.refused ≡ self.old.refused }
        ensures queues { self.new.queues ≡ self.old.queues }
        ensures grows { (w : World) → E.stands_for self.old.kept (K.means keeper.old) w → IsSome (K.means keeper.new).rows → StoreGrows E.stands_for w.history (K.means keeper.new) self.new.kept result }
        ensures going { OnOk result (E.is_going self.new.kept) }
        ensures tells { KeepsTelling (K.means keeper.old) (K.means keeper.new) result }
        ensures told { IsSome (K.means keeper.new).rows → IsSome (K.means keeper.old).rows }
        ensures same { (other : List ℕ) → (F.means files.new).content other ≡ (F.means files.old).content other }
        ensures paths { (K.means keeper.new).paths ≡ (K.means keeper.old).paths }
        ensures ends { (others : Outside) → Ends (IsBadIn (K.means keeper.new)) ⊥ (record others { files = F.means files.old; store = K.means keeper.old })
            (record others { files = F.means files.new; store = K.means keeper.new }) result }
    {
        match last_behind(self.kept.last(), time) {
            Some(last) => Ok(Report::Backwards { last, given: time }),
            None => self.take_files(alloc, time, names, files, keeper),
        }
    }

    // Appends a report, and offers what it sent to the receivers.
    fn tell(&mut self, text: &mut Vec<u8>, report: &Report) -> Result<(), AllocError>
        ensures text { OnOk result (text.new.items ≡ text.old.items ++ shown_report report.now) }
        ensures receivers { OnOk result ((rs : List Receiver) → waiting.StandsFor self.old.queues rs → waiting.StandsFor self.new.queues (receivers_after report.now rs)) }
        ensures refused { self.new.refused ≡ (self.old.refused || is_refusal report.now) }
        ensures kept { self.new.kept ≡ self.old.kept }
    {
        self.refused = self.refused || report.is_refusal();
        notify(&mut self.notifier, report)?;
        push_report(text, report)
    }

    // Takes an order that is an event, and appends the answer to it.
    fn take_event_order<K: Keeper>(
        &mut self,
        alloc: Global,
        text: &mut Vec<u8>,
        event: Event,
        keeper: &mut K,
    ) -> Result<(), Stop>
        requires files { HasNoFiles event }
        requires going { E.is_going self.old.kept }
        ensures answers { (others : Outside) (held : Held) (p : Progress) (number : ℕ) → KeepsProgress E.stands_for self.old (K.means keeper.old) p
            → IsSome (K.means keeper.new).rows
            → OnOk result (AnswersOrder E.stands_for held p (record { number = number; order = order.Event event }) (record others { store = K.means keeper.old }) (record others { store = K.means keeper.new }) self.new text.old.items text.new.items) }
        ensures leaves { (others : Outside) (held : Held) (p : Progress) (number : ℕ) → KeepsProgress E.stands_for self.old (K.means keeper.old) p
            → IsSome (K.means keeper.new).rows
            → IfErr result (LeavesFront (turn held p.state (record { number = number; order = order.Event event })) p.state.world.history (record others { store = K.means keeper.old }) (record others { store = K.means keeper.new })) }
        ensures grows { (w : World) → E.stands_for self.old.kept (K.means keeper.old) w → IsSome (K.means keeper.new).rows → StoreGrows E.stands_for w.history (K.means keeper.new) self.new.kept result }
        ensures going { OnOk result (E.is_going self.new.kept) }
        ensures tells { KeepsTelling (K.means keeper.old) (K.means keeper.new) result }
        ensures told { IsSome (K.means keeper.new).rows → IsSome (K.means keeper.old).rows }
        ensures paths { (K.means keeper.new).paths ≡ (K.means keeper.old).paths }
        ensures ends { (others : Outside) → Ends (IsBadIn (K.means keeper.new)) ⊥ (record others { store = K.means keeper.old }) (record others { store = K.means keeper.new }) result }
    {
        let report = self.take_event(alloc, event, keeper)?;
        self.tell(text, &report)?;
        Ok(())
    }

    // Takes an order that names files, and appends the answer to it.
    fn take_files_order<F: Files, K: Keeper>(
        &mut self,
        alloc: Global,
        text: &mut Vec<u8>,
        time: Ms,
        names: FilesToLoad,
        files: &mut F,
        keeper: &mut K,
    ) -> Result<(), Stop>
        requires going { E.is_going self.old.kept }
        ensures answers { (others : Outside) (held : Held) (p : Progress) (number : ℕ) → KeepsProgress E.stands_for self.old (K.means keeper.old) p
            → AreTold (F.means files.old).content held (turn held p.state (record { number = number; order = order.Reload time names })).answer.asks → IsSome (K.means keeper.new).rows
            → OnOk result (AnswersOrder E.stands_for held p (record { number = number; order = order.Reload time names }) (record others { files = F.means files.old; store = K.means keeper.old }) (record others { files = F.means files.new; store = K.means keeper.new }) self.new text.old.items text.new.items) }
        ensures leaves { (others : Outside) (held : Held) (p : Progress) (number : ℕ) → KeepsProgress E.stands_for self.old (K.means keeper.old) p
            → AreTold (F.means files.old).content held (turn held p.state (record { number = number; order = order.Reload time names })).answer.asks → IsSome (K.means keeper.new).rows
            → IfErr result (LeavesFront (turn held p.state (record { number = number; order = order.Reload time names })) p.state.world.history (record others { files = F.means files.old; store = K.means keeper.old }) (record others { files = F.means files.new; store = K.means keeper.new })) }
        ensures grows { (w : World) → E.stands_for self.old.kept (K.means keeper.old) w → IsSome (K.means keeper.new).rows → StoreGrows E.stands_for w.history (K.means keeper.new) self.new.kept result }
        ensures going { OnOk result (E.is_going self.new.kept) }
        ensures tells { KeepsTelling (K.means keeper.old) (K.means keeper.new) result }
        ensures told { IsSome (K.means keeper.new).rows → IsSome (K.means keeper.old).rows }
        ensures same { (other : List ℕ) → (F.means files.new).content other ≡ (F.means files.old).content other }
        ensures paths { (K.means keeper.new).paths ≡ (K.means keeper.old).paths }
        ensures ends { (others : Outside) → Ends (IsBadIn (K.means keeper.new)) ⊥ (record others { files = F.means files.old; store = K.means keeper.old })
            (record others { files = F.means files.new; store = K.means keeper.new }) result }
    {
        let report = self.take_reload(alloc, time, &names, files, keeper)?;
        self.tell(text, &report)?;
        Ok(())
    }

    // Adds a receiver, and appends what became of its name.
    fn add_receiver(&mut self, text: &mut Vec<u8>, name: &str) -> Result<(), Stop>
        ensures replies { OnOk result ((rs : List Receiver) → waiting.StandsFor self.old.queues rs → ReceiversReply (receiver_reply name.now rs) self.old self.new text.old.items text.new.items) }
        ensures kept { self.new.kept ≡ self.old.kept }
        ensures memory { IfErr result (λ s. s ≡ Stop.Memory) }
    {
        let joined = self.notifier.add(name)?;
        self.refused = self.refused || is_not_new(joined);
        push_joined(text, name, joined)?;
        Ok(())
    }

    // Appends what waits for a receiver, which takes it out; or that no receiver has the name.
    fn flush_receiver(&mut self, text: &mut Vec<u8>, name: &str) -> Result<(), Stop>
        ensures replies { OnOk result ((rs : List Receiver) → waiting.StandsFor self.old.queues rs → ReceiversReply (flush_reply name.now rs) self.old self.new text.old.items text.new.items) }
        ensures kept { self.new.kept ≡ self.old.kept }
        ensures memory { IfErr result (λ s. s ≡ Stop.Memory) }
    {
        match self.notifier.flush(name)? {
            Some(batch) => {
                push_batch(text, name, &batch)?;
                Ok(())
            }
            None => {
                self.refused = true;
                push_no_receiver(text, name)?;
                Ok(())
            }
        }
    }

    // Refuses a line that spells no order.
    fn refuse_line(&mut self, text: &mut Vec<u8>, number: u64) -> Result<(), Stop>
        ensures replies { OnOk result ((rs : List Receiver) → waiting.StandsFor self.old.queues rs → ReceiversReply (bad_line_reply number rs) self.old self.new text.old.items text.new.items) }
        ensures kept { self.new.kept ≡ self.old.kept }
        ensures memory { IfErr result (λ s. s ≡ Stop.Memory) }
    {
        self.refused = true;
        push_bad_line(text, number)?;
        Ok(())
    }

    /// Takes an order, and appends the answer to it.
    pub(crate) fn take_order<F: Files, K: Keeper>(
        &mut self,
        alloc: Global,
        text: &mut Vec<u8>,
        order: Numbered,
        files: &mut F,
        keeper: &mut K,
    ) -> Result<(), Stop>
        requires plain { IsPlain order.order }
        requires going { E.is_going self.old.kept }
        ensures answers { (others : Outside) (held : Held) (p : Progress) → KeepsProgress E.stands_for self.old (K.means keeper.old) p
            → AreTold (F.means files.old).content held (turn held p.state order).answer.asks → IsSome (K.means keeper.new).rows
            → OnOk result (AnswersOrder E.stands_for held p order (record others { files = F.means files.old; store = K.means keeper.old }) (record others { files = F.means files.new; store = K.means keeper.new }) self.new text.old.items text.new.items) }
        ensures leaves { (others : Outside) (held : Held) (p : Progress) → KeepsProgress E.stands_for self.old (K.means keeper.old) p
            → AreTold (F.means files.old).content held (turn held p.state order).answer.asks → IsSome (K.means keeper.new).rows
            → IfErr result (LeavesFront (turn held p.state order) p.state.world.history (record others { files = F.means files.old; store = K.means keeper.old }) (record others { files = F.means files.new; store = K.means keeper.new })) }
        ensures grows { (w : World) → E.stands_for self.old.kept (K.means keeper.old) w → IsSome (K.means keeper.new).rows → StoreGrows E.stands_for w.history (K.means keeper.new) self.new.kept result }
        ensures going { OnOk result (E.is_going self.new.kept) }
        ensures tells { KeepsTelling (K.means keeper.old) (K.means keeper.new) result }
        ensures told { IsSome (K.means keeper.new).rows → IsSome (K.means keeper.old).rows }
        ensures same { (other : List ℕ) → (F.means files.new).content other ≡ (F.means files.old).content other }
        ensures paths { (K.means keeper.new).paths ≡ (K.means keeper.old).paths }
        ensures ends { (others : Outside) → Ends (IsBadIn (K.means keeper.new)) ⊥ (record others { files = F.means files.old; store = K.means keeper.old })
            (record others { files = F.means files.new; store = K.means keeper.new }) result }
    {
        let Numbered { number, order } = order;
        match order {
            Order::Event { event } => self.take_event_order(alloc, text, event, keeper),
            Order::Reload { time, files: names } => {
                self.take_files_order(alloc, text, time, names, files, keeper)
            }
            Order::Receiver { name } => self.add_receiver(text, name.as_str()),
            Order::Flush { name } => self.flush_receiver(text, name.as_str()),
            Order::Bad => self.refuse_line(text, number),
        }
    }
}
