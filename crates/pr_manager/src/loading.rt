// The new groups of files.
ghost use Rattle.std.specs.Prelude.{◌≡◌, ◌≢◌, ◌<◌, ◌++◌, [], List, map, IfOk, IfErr, OnOk, Ok};
ghost use Rattle.std.specs.List.{All};
ghost use Rattle.spec_world.specs.spec_history.declared.entry.Entry.{Entry};
ghost use Rattle.spec_world.specs.spec_rules.Definitions.{group_of_def};
ghost use Rattle.spec_world.specs.pr_rulefile.File.{groups_given, groups_of_file, rule_file_of};
ghost use Rattle.spec_world.specs.spec_rules.Settings.{of_a_run};
ghost use Rattle.pr_group.specs.pr_rule.private.Templates.{HaveTemplates};
ghost use Rattle.spec_world.specs.spec_rules.Groups.{Group, fresh};
ghost use Rattle.pr_group.specs.private.Keeping.{waits_of};
ghost use Rattle.spec_world.specs.Rounds.{all_loaded, first_problem, groups_by};
ghost use Rattle.pr_manager.specs.private.Keeping.{KeepEach, KeepsUnder, settings_with};
ghost use Rattle.pr_manager.specs.private.Loading.{HasPassedNothing, IsRefusalOf, fresh_by, loaded_files};

use crate::templates::rules_that_read_have_templates;
use pr_ast::labels::Labels;
use pr_ast::time::Span;
use pr_ast::words_crate::{Items, Text};
use pr_group::GroupOver;
use pr_group::range::Ranges;
use spec_world::NamedFile;
use spec_world::rulefile::fields::{Problem, ProblemKind};
use spec_world::rulefile::laws::a_refused_file_has_a_problem;
use spec_world::rulefile::{RuleError, RuleFile, read};
use spec_world::rules_crate::GroupDef;
use spec_world::tmpl::External;
use std::alloc::{AllocError, Global};
use std::rc::Rc;

// A file has fewer bytes, so that its lines can be counted.
const FILE_LIMIT: usize = 0x1_0000_0000;

/// Why files are not loaded.
#[derive(Debug, Drop)]
pub(crate) enum LoadError {
    /// A file is no rule file: its name, and its first problem.
    Refused {
        name: Text,
        line: u32,
        kind: ProblemKind,
    },
    /// Memory ran out.
    Memory,
}

impl From<AllocError> for LoadError {
    ghost use Rattle.std.specs.Prelude.{◌≡◌};
    ghost use Rattle.pr_manager.specs.declared.loading.LoadError.TheVariants.{Memory};

    ghost from_gives = { λ _ e. e ≡ Memory };

    fn from(_error: AllocError) -> LoadError {
        LoadError::Memory
    }
}

/// What new groups are made with.
#[derive(Clone, Copy)]
pub(crate) struct Making<'a> {
    /// Whether they wait for their alerts to be restored.
    pub(crate) waits: bool,
    /// The step of subqueries that give none.
    pub(crate) step: Span,
    /// What templates see as external.
    pub(crate) external: &'a External,
}

/// What templates see as external in a run: no labels, and no address.
pub fn no_external(alloc: Global) -> External
    ensures { result ≡ of_a_run.external }
{
    External {
        labels: Labels::empty(alloc),
        url: Text::new(String::new(alloc)),
    }
}

// The same texts once more.
fn copied(alloc: Global, external: &External) -> Result<External, AllocError>
    ensures { IfOk result (λ e. e ≡ external.now) }
{
    Ok(External {
        labels: external.labels.copy(alloc)?,
        url: external.url.copy(alloc)?,
    })
}

// A new group, to which nothing has happened.
fn fresh_group<R: Ranges + Drop>(
    alloc: Global,
    name: &str,
    def: GroupDef,
    making: &Making<'_>,
) -> Result<GroupOver<R>, AllocError>
    requires some { 0 < making.now.step }
    requires templates { HaveTemplates def }
    ensures unpassed { IfOk result (HasPassedNothing R.passed) }
    ensures fresh { (history : List Entry) → IfOk result (λ k. KeepsUnder R.fits R.last R.passed (settings_with making.now.step making.now.external.now) history k (fresh (waits_of making.now.waits) name.now (group_of_def def))) }
{
    let def = Rc::new(alloc, def)?;
    let file = Text::from_str(alloc, name)?;
    let external = copied(alloc, making.external)?;
    GroupOver::new(alloc, def, file, making.waits, making.step, external)
}

// Puts the groups of a file behind others.
fn push_groups<R: Ranges + Drop>(
    alloc: Global,
    news: &mut Vec<GroupOver<R>>,
    name: &str,
    defs: Vec<GroupDef>,
    making: &Making<'_>,
) -> Result<(), AllocError>
    requires some { 0 < making.now.step }
    requires templates { All HaveTemplates defs.items }
    ensures unpassed { All (HasPassedNothing R.passed) news.old.items → OnOk result (All (HasPassedNothing R.passed) news.new.items) }
    ensures fresh { (history : List Entry) (groups : List Group) → KeepEach R.fits R.last R.passed (settings_with making.now.step making.now.external.now) history news.old.items groups
        → OnOk result (KeepEach R.fits R.last R.passed (settings_with making.now.step making.now.external.now) history news.new.items (groups ++ map (fresh (waits_of making.now.waits) name.now) (map group_of_def defs.items))) }
{
    for def in defs {
        news.push(fresh_group(alloc, name, def, making)?)?;
    }
    Ok(())
}

// What a file is refused by that has these problems.
fn refusal_of(alloc: Global, name: &str, list: Items<Problem>) -> LoadError
    requires { list ≢ [] }
    ensures { IsRefusalOf (first_problem name.now list) result }
{
    let Some(first) = list.into_vec().into_iter().next() else {
        unreachable!()
    };
    match Text::from_str(alloc, name) {
        Ok(name) => LoadError::Refused {
            name,
            line: first.line,
            kind: first.kind,
        },
        Err(_) => LoadError::Memory,
    }
}

// The groups of a file. One that is too long is want of memory, since no input is so long.
fn read_file(alloc: Global, file: &NamedFile) -> Result<RuleFile, LoadError>
    ensures file { IfOk result (λ f. groups_by file.now.name (rule_file_of file.now.bytes) ≡ Ok (groups_of_file f)) }
    ensures given { IfOk result (λ f. groups_given (rule_file_of file.now.bytes) ≡ groups_of_file f) }
    ensures templates { IfOk result (λ f. All HaveTemplates f.groups) }
    ensures refused { IfErr result (IsRefusalOf (groups_by file.now.name (rule_file_of file.now.bytes))) }
{
    a_refused_file_has_a_problem();
    rules_that_read_have_templates();
    let bytes = file.bytes.as_slice();
    if bytes.len() >= FILE_LIMIT {
        return Err(LoadError::Memory);
    }
    match read(alloc, bytes) {
        Ok(read) => Ok(read),
        Err(RuleError::Problems { list }) => Err(refusal_of(alloc, file.name.as_str(), list)),
        Err(RuleError::Memory) => Err(LoadError::Memory),
    }
}

// Puts the groups of a file behind others, unless it is refused.
fn load_file<R: Ranges + Drop>(
    alloc: Global,
    news: &mut Vec<GroupOver<R>>,
    file: &NamedFile,
    making: &Making<'_>,
) -> Result<(), LoadError>
    requires { 0 < making.now.step }
    ensures file { OnOk result (groups_by file.now.name (rule_file_of file.now.bytes) ≡ Ok (groups_given (rule_file_of file.now.bytes))) }
    ensures unpassed { All (HasPassedNothing R.passed) news.old.items → OnOk result (All (HasPassedNothing R.passed) news.new.items) }
    ensures fresh { (history : List Entry) (groups : List Group) → KeepEach R.fits R.last R.passed (settings_with making.now.step making.now.external.now) history news.old.items groups
        → OnOk result (KeepEach R.fits R.last R.passed (settings_with making.now.step making.now.external.now) history news.new.items (groups ++ map (fresh (waits_of making.now.waits) file.now.name) (groups_given (rule_file_of file.now.bytes)))) }
    ensures refused { IfErr result (IsRefusalOf (groups_by file.now.name (rule_file_of file.now.bytes))) }
{
    match read_file(alloc, file) {
        Ok(read) => {
            let defs = read.groups.into_vec();
            match push_groups(alloc, news, file.name.as_str(), defs, making) {
                Ok(()) => Ok(()),
                Err(_) => Err(LoadError::Memory),
            }
        }
        Err(error) => Err(error),
    }
}

/// The new groups of files, in order, to which nothing has happened.
///
/// # Errors
/// `Refused` with the first file that is no rule file, and its first problem; want of memory.
pub(crate) fn load<R: Ranges + Drop>(
    alloc: Global,
    files: &[NamedFile],
    making: &Making<'_>,
) -> Result<Vec<GroupOver<R>>, LoadError>
    requires { 0 < making.now.step }
    ensures files { OnOk result (all_loaded files.now ≡ Ok (loaded_files files.now)) }
    ensures unpassed { IfOk result (λ v. All (HasPassedNothing R.passed) v.items) }
    ensures fresh { (history : List Entry) → IfOk result (λ v. KeepEach R.fits R.last R.passed (settings_with making.now.step making.now.external.now) history v.items (fresh_by (waits_of making.now.waits) (loaded_files files.now))) }
    ensures refused { IfErr result (IsRefusalOf (all_loaded files.now)) }
{
    let mut news = Vec::new(alloc);
    let mut rest = files;
    'loading: while let Some((file, after)) = rest.split_first() {
        load_file(alloc, &mut news, file, making)?;
        rest = after;
    }
    Ok(news)
}
