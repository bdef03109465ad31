// Changes of a label set.
ghost use Rattle.std.specs.Prelude.{◌≡◌, ◌<◌, [], true, cond, length, OnOk, OnErr, IfErr};
ghost use Rattle.pr_labels.specs.Names.{is_label_name};
ghost use Rattle.pr_labels.specs.LabelSet.{IsLabel, IsLabelSet};
ghost use Rattle.pr_labels.specs.Edits.{set_label, set_pair, without_name};
ghost use Rattle.std.specs.List.{remove};

use super::Labels;
use super::place::place_of;
use super::shared::SharedPairs;
use crate::fault::LabelFault;
use crate::names::is_label_name;
use crate::pair::Pair;
use pr_words::Text;
use std::alloc::{AllocError, Global};
use std::mem;

// Puts a label in at its place, instead of the one with its name.
#[tactic(auto, using(crate::proofs::Places::put_over, crate::proofs::Places::put_between))]
fn put(pairs: &mut Vec<Pair>, label: Pair) -> Result<(), AllocError>
    requires set { IsLabelSet pairs.old.items }
    requires label { IsLabel label }
    ensures ok { OnOk result (pairs.new.items ≡ set_pair pairs.old.items label) }
    ensures err { OnErr result (pairs.new.items ≡ pairs.old.items) }
{
    match place_of(pairs, label.name.as_str()) {
        Ok(place) => pairs[place] = label,
        Err(gap) => pairs.insert(gap, label)?,
    }
    Ok(())
}

// The same of pairs that may be shared. Where they are, others come in their stead.
fn put_in(alloc: Global, pairs: &mut SharedPairs, label: Pair) -> Result<(), AllocError>
    requires set { IsLabelSet pairs.old }
    requires label { IsLabel label }
    ensures ok { OnOk result (pairs.new ≡ set_pair pairs.old label) }
    ensures err { OnErr result (pairs.new ≡ pairs.old) }
{
    let mut alone = pairs.take(alloc)?;
    let put = put(&mut alone, label);
    *pairs = SharedPairs::new(alloc, alone);
    put
}

// Takes out the pair at a place. Where the pairs are shared, what is left is shared too if it is
// all but the first, else others come in their stead.
fn take_out(alloc: Global, pairs: &mut SharedPairs, place: usize) -> Result<(), AllocError>
    requires { place < length pairs.old }
    ensures ok { OnOk result (pairs.new ≡ remove pairs.old place) }
    ensures err { OnErr result (pairs.new ≡ pairs.old) }
{
    match mem::replace(pairs, SharedPairs::empty(alloc)).into_alone() {
        Ok(mut alone) => {
            alone.remove(place);
            *pairs = SharedPairs::new(alloc, alone);
        }
        Err(shared) => match shared.others(alloc, place) {
            Ok(others) => *pairs = others,
            Err(error) => {
                *pairs = shared;
                return Err(error);
            }
        },
    }
    Ok(())
}

impl Labels {
    /// Takes a name out, where the set has it. Without memory the set is as it was.
    pub fn remove(&mut self, alloc: Global, name: &str) -> Result<(), AllocError>
        ensures ok { OnOk result (self.new ≡ without_name self.old name.now) }
        ensures err { OnErr result (self.new ≡ self.old) }
    {
        self.leave_out(alloc, name)
    }

    // The same, which is to set the name to nothing.
    #[tactic(auto, using(crate::proofs::Places::removed, crate::proofs::Places::nothing_removed, crate::proofs::Putting::set_nothing))]
    fn leave_out(&mut self, alloc: Global, name: &str) -> Result<(), AllocError>
        ensures ok { OnOk result (self.new ≡ without_name self.old name.now) }
        ensures set { OnOk result (self.new ≡ set_label self.old name.now []) }
        ensures err { OnErr result (self.new ≡ self.old) }
    {
        match place_of(self.pairs.as_slice(), name) {
            Ok(place) => take_out(alloc, &mut self.pairs, place),
            Err(_gap) => Ok(()),
        }
    }

    /// Sets the value of a name; an empty value takes the name out. After a refusal the set is as
    /// it was.
    ///
    /// # Errors
    /// `BadName` of index 0 exactly where the name is no label name.
    pub fn set(&mut self, alloc: Global, name: &str, value: &str) -> Result<(), LabelFault>
        ensures ok { OnOk result (self.new ≡ set_label self.old name.now value.now) }
        ensures named { OnOk result (is_label_name name.now ≡ true) }
        ensures err { IfErr result (λ e. e ≡ cond (is_label_name name.now) LabelFault.Memory (LabelFault.BadName 0)) }
        ensures unchanged { OnErr result (self.new ≡ self.old) }
    {
        if !is_label_name(name.as_bytes()) {
            return Err(LabelFault::BadName { index: 0 });
        }
        self.assign(alloc, name, value)?;
        Ok(())
    }

    /// Sets the value of a label name; an empty value takes the name out. Without memory the set is
    /// as it was.
    pub fn assign(&mut self, alloc: Global, name: &str, value: &str) -> Result<(), AllocError>
        requires { is_label_name name.now ≡ true }
        ensures ok { OnOk result (self.new ≡ set_label self.old name.now value.now) }
        ensures err { OnErr result (self.new ≡ self.old) }
    {
        if value.is_empty() {
            return self.leave_out(alloc, name);
        }
        let label = Pair {
            name: Text::from_str(alloc, name)?,
            value: Text::from_str(alloc, value)?,
        };
        put_in(alloc, &mut self.pairs, label)
    }
}
