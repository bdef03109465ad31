// A reload.
ghost use Rattle.std.specs.Prelude.{◌≡◌, ℕ, true, List, [], Result, Err, length, map, sum_by, IfOk, OnOk};
ghost use Rattle.std.specs.List.{All, IsDistinct};
ghost use Rattle.std.specs.Str.{bytes_eq};
ghost use Rattle.spec_world.specs.spec_history.private.Laws.{IsLawful};
ghost use Rattle.spec_world.specs.spec_history.declared.entry.Entry.{Entry as Line};
ghost use Rattle.pr_group.specs.pr_head.private.Holds.{Holds};
ghost use Rattle.spec_world.specs.spec_rules.Groups.{Group};
ghost use Rattle.spec_world.specs.spec_rules.Reloads.{LoadedFile, reload_by};
ghost use Rattle.spec_world.specs.World.{World};
ghost use Rattle.spec_world.specs.declared.event.NamedFile.{NamedFile};
ghost use Rattle.spec_world.specs.declared.report.Report.{Report as Answer};
ghost use Rattle.spec_world.specs.declared.report.Report.TheVariants.{Reloaded};
ghost use Rattle.pr_manager.specs.private.Keeping.{HasGoneOn, KeepEach, ManagesGroupsOf, settings_in};
ghost use Rattle.pr_manager.specs.private.Loading.{HasPassedNothing, IsRefusalOf, fresh_by};
ghost use Rattle.pr_manager.specs.private.Naming.{AreApart, names_of, passed_by_named};
ghost use Rattle.pr_manager.specs.private.Passing.{ReloadPasses};
ghost use Rattle.pr_manager.specs.private.Replacing.{HasReplaced};
ghost use Rattle.pr_manager.specs.private.Rounds.{files_step};

use crate::answered::Answered;
use crate::continuing::go_on;
use crate::gone::mark_gone;
use crate::loading::{LoadError, Making, load};
use crate::manager::Manager;
use crate::parting::part;
use pr_ast::time::Ms;
use pr_ast::words_crate::Items;
use pr_group::head::Head;
use pr_group::range::Ranges;
use pr_group::rules_crate::RuleDef;
use pr_group::{GroupOver, a_kept_group_stays};
use spec_world::history::Entry;
use spec_world::rulefile::laws::groups_are_sound;
use spec_world::{NamedFile, Report};
use std::alloc::{AllocError, Global};

// The rules of groups. That they stand in a list tells that so many can be counted.
fn rules_of_groups<'a, R: Ranges + Drop>(
    alloc: Global,
    groups: &'a [GroupOver<R>],
) -> Result<Vec<&'a RuleDef>, AllocError>
    ensures { IfOk result (λ rules. length rules.items ≡ sum_by (λ k. length k.def.rules) groups.now) }
{
    let mut rules = Vec::new(alloc);
    for group in groups {
        for rule in group.def().rules.as_slice() {
            rules.push(rule)?;
        }
    }
    Ok(rules)
}

// Refuses a reload.
fn refuse(alloc: Global, error: LoadError) -> Result<Answered, AllocError>
    ensures report { (files : Result (List LoadedFile) Answer) → IsRefusalOf files error → IfOk result (λ a. files ≡ Err a.report) }
    ensures added { IfOk result (λ a. a.added ≡ []) }
{
    match error {
        LoadError::Refused { name, line, kind } => Ok(Answered {
            report: Report::Refused { name, line, kind },
            added: Items::empty(alloc),
        }),
        LoadError::Memory => Err(AllocError),
    }
}

// What is told of a reload that is accepted.
fn report_of<R: Ranges + Drop>(
    alloc: Global,
    groups: &[GroupOver<R>],
    added: &[Entry],
) -> Result<Report, AllocError>
    ensures { IfOk result (λ r. r ≡ Reloaded (length groups.now) (sum_by (λ k. length k.def.rules) groups.now) (length added.now)) }
{
    Ok(Report::Reloaded {
        groups: groups.len() as u64,
        rules: rules_of_groups(alloc, groups)?.len() as u64,
        stale: added.len() as u64,
    })
}

impl<R: Ranges + Drop> Manager<R> {
    // Puts new groups, to which nothing has happened, in the place of all groups.
    fn replace(
        &mut self,
        alloc: Global,
        head: &mut Head,
        news: Vec<GroupOver<R>>,
        time: Ms,
    ) -> Result<Answered, AllocError>
        requires { AreApart (names_of news.items) }
        ensures replaced { (history : List Line) (olds : List Group) (waits : ℕ) (files : List LoadedFile) → KeepEach R.fits R.last R.passed (settings_in self.old) history self.old.groups olds
            → KeepEach R.fits R.last R.passed (settings_in self.old) history news.items (fresh_by waits files) → All (HasPassedNothing R.passed) news.items → IsLawful history → Holds head.old history
            → IfOk result (HasReplaced R.fits R.last R.passed (settings_in self.old) history olds (reload_by olds time (fresh_by waits files)) head.old head.new self.old.groups self.new.groups) }
        ensures since { OnOk result (self.new.reloaded ≡ true) }
        ensures settings { OnOk result (settings_in self.new ≡ settings_in self.old) }
    {
        a_kept_group_stays::<R>();
        let olds = std::mem::replace(&mut self.groups, Vec::new(alloc));
        let mut parted = part(alloc, olds, &news)?;
        self.groups = go_on(alloc, news, &mut parted.waiting)?;
        self.reloaded = true;
        let added = mark_gone(alloc, head, time, &parted.gone)?;
        Ok(Answered {
            report: report_of(alloc, &self.groups, &added)?,
            added: Items::new(added),
        })
    }

    /// Puts the groups of these files in the place of all groups. The files are read in order, and
    /// the first that is no rule file refuses the reload, by its first problem; then nothing
    /// changes. Else each new group goes on from an old one of its file and name, and what remains of
    /// the old groups that none goes on from goes stale at the time. (Prometheus: Configuration,
    /// reload; rules/manager.go, Update.) A file that is too long for its lines to be counted is want
    /// of memory; no input is so long.
    ///
    /// # Errors
    /// Want of memory: then nothing is said of the groups and of the head, and both are used no more.
    pub fn reload(
        &mut self,
        alloc: Global,
        head: &mut Head,
        files: Items<NamedFile>,
        time: Ms,
    ) -> Result<Answered, AllocError>
        requires { IsDistinct bytes_eq (map (λ f. f.name) files) }
        ensures report { (w : World) → ManagesGroupsOf R.fits R.last R.passed self.old w → IsLawful w.history → Holds head.old w.history
            → IfOk result (λ a. a.report ≡ (files_step w time files).report) }
        ensures rows { (w : World) → ManagesGroupsOf R.fits R.last R.passed self.old w → IsLawful w.history → Holds head.old w.history
            → IfOk result (λ a. a.added ≡ (files_step w time files).rows) }
        ensures keeps { (w : World) → ManagesGroupsOf R.fits R.last R.passed self.old w → IsLawful w.history → Holds head.old w.history
            → OnOk result (ManagesGroupsOf R.fits R.last R.passed self.new (files_step w time files).world) }
        ensures head { (w : World) → ManagesGroupsOf R.fits R.last R.passed self.old w → IsLawful w.history → Holds head.old w.history
            → OnOk result (HasGoneOn head.old head.new w.history (files_step w time files).world.history) }
        // Windows go on with the groups that go on.
        ensures passed { (w : World) → ManagesGroupsOf R.fits R.last R.passed self.old w → IsLawful w.history → Holds head.old w.history
            → OnOk result (ReloadPasses w time files (passed_by_named R.passed self.old w.history) (passed_by_named R.passed self.new (files_step w time files).world.history)) }
        ensures refused { (w : World) → ManagesGroupsOf R.fits R.last R.passed self.old w → IsLawful w.history → Holds head.old w.history
            → (files_step w time files).refused ≡ true → OnOk result ((self.new ≡ self.old) × (head.new ≡ head.old)) }
        ensures settings { OnOk result (settings_in self.new ≡ settings_in self.old) }
    {
        groups_are_sound();
        let making = Making {
            waits: !self.reloaded,
            step: self.step,
            external: &self.external,
        };
        match load(alloc, files.as_slice(), &making) {
            Ok(news) => self.replace(alloc, head, news, time),
            Err(error) => refuse(alloc, error),
        }
    }
}
