// The families of the lines so far.
use crate::expo_line::FamilyKind;
use crate::exposition::Family;
use crate::known::{Known, nothing_known, with_sample};
use indexmap::IndexMap;
use pr_labels::words_crate::Text;
use std::alloc::{AllocError, Global};
use std::marker::Model;

// Names with what is known of each, in order of first mention. Contracts see that list.
#[derive(Drop)]
pub(crate) struct Families {
    known: IndexMap<Text, Known>,
}

impl Model for Families {
    ghost use Rattle.pr_expo.specs.private.Keeping.{Entries};

    ghost Value = { Entries };

    ghost view = { λ f. f.known.entries };
}

ghost use Rattle.std.specs.Prelude.{◌≡◌, ℕ, [], IfOk, IfSome, MatchOption, OnOk, codes, false, map, true, unwrap_or};
ghost use Rattle.std.specs.List.{position_or_len};
ghost use Rattle.std.specs.Map.{keys_of};
ghost use Rattle.std.specs.Str.{bytes_eq};
ghost use Rattle.pr_expo.specs.Families.{ends_in, has_parts, whole_of, without_ending};
ghost use Rattle.pr_expo.specs.private.Keeping.{family_from, kept_family, kept_kind, known_of, put, with_sample};

// The name without an ending, where it has that.
fn without_ending<'a>(name: &'a str, ending: &str) -> Option<&'a str>
    ensures { MatchOption result (ends_in ending.now name.now ≡ false) (λ base. (ends_in ending.now name.now ≡ true) × (base.now ≡ without_ending ending.now name.now)) }
{
    name.strip_suffix(ending)
}

// Whether a family of the kind has parts of its own names.
fn has_parts(in_summaries: bool, kind: FamilyKind) -> bool
    ensures { result ≡ has_parts in_summaries kind }
{
    match kind {
        FamilyKind::Histogram => true,
        FamilyKind::Summary => in_summaries,
        FamilyKind::Counter | FamilyKind::Gauge | FamilyKind::Untyped => false,
    }
}

impl Families {
    pub(crate) fn new(alloc: Global) -> Families
        ensures { result ≡ [] }
    {
        Families {
            known: IndexMap::new(alloc),
        }
    }

    // What is known of a name.
    pub(crate) fn known_of(&self, name: &Text) -> Known
        ensures { result ≡ known_of self.now name.now }
    {
        match self.known.get(name) {
            Some(known) => *known,
            None => nothing_known(),
        }
    }

    // The family of which a name with this ending is a part.
    fn whole_of(
        &self,
        alloc: Global,
        name: &Text,
        ending: &str,
        in_summaries: bool,
    ) -> Result<Option<Text>, AllocError>
        ensures { IfOk result (λ o. o ≡ whole_of (kept_kind self.now) in_summaries ending.now name.now) }
    {
        match without_ending(name.as_str(), ending) {
            None => Ok(None),
            Some(base) => {
                let base = Text::from_str(alloc, base)?;
                if has_parts(in_summaries, self.known_of(&base).kind) {
                    Ok(Some(base))
                } else {
                    Ok(None)
                }
            }
        }
    }

    // The family of a sample with this name, where that is not the name itself.
    fn other_family(&self, alloc: Global, name: &Text) -> Result<Option<Text>, AllocError>
        ensures { IfOk result (λ o. unwrap_or o name.now ≡ kept_family self.now name.now) }
    {
        if let Some(family) = self.whole_of(alloc, name, "_bucket", false)? {
            return Ok(Some(family));
        }
        if let Some(family) = self.whole_of(alloc, name, "_sum", true)? {
            return Ok(Some(family));
        }
        let family = self.whole_of(alloc, name, "_count", true)?;
        Ok(family)
    }

    // The place of a family that is known to have a sample.
    #[tactic(auto, using(crate::proofs::Sampled::stays_put, crate::proofs::Sampled::place_is))]
    fn sampled_place(&self, family: &Text) -> Option<usize>
        ensures place { IfSome result (λ i. i ≡ position_or_len (bytes_eq family.now) (keys_of self.now)) }
        ensures stays { IfSome result (λ i. put self.now family.now (with_sample (known_of self.now family.now)) ≡ self.now) }
    {
        match self.known.get_full(family) {
            Some((place, _, known)) if known.sampled => Some(place),
            _ => None,
        }
    }

    // Puts that a family has a sample, and gives its place.
    fn put_sample(&mut self, family: Text) -> Result<usize, AllocError>
        ensures place { IfOk result (λ i. i ≡ position_or_len (bytes_eq family) (keys_of self.old)) }
        ensures known { OnOk result (self.new ≡ put self.old family (with_sample (known_of self.old family))) }
    {
        let known = with_sample(self.known_of(&family));
        let place = self.put(family, known)?;
        Ok(place)
    }

    // The same for the family of a sample with this name. Where the name is that of the family, it
    // is copied for its first sample alone.
    pub(crate) fn note_sample(&mut self, alloc: Global, name: &Text) -> Result<usize, AllocError>
        ensures place { IfOk result (λ i. i ≡ position_or_len (bytes_eq (kept_family self.old name.now)) (keys_of self.old)) }
        ensures known { OnOk result (self.new ≡ put self.old (kept_family self.old name.now) (with_sample (known_of self.old (kept_family self.old name.now)))) }
    {
        if let Some(family) = self.other_family(alloc, name)? {
            let place = self.put_sample(family)?;
            return Ok(place);
        }
        if let Some(place) = self.sampled_place(name) {
            return Ok(place);
        }
        let place = self.put_sample(name.copy(alloc)?)?;
        Ok(place)
    }

    // Puts what is known of a name, and gives the place of the name.
    pub(crate) fn put(&mut self, name: Text, known: Known) -> Result<usize, AllocError>
        ensures place { IfOk result (λ i. i ≡ position_or_len (bytes_eq name) (keys_of self.old)) }
        ensures known { OnOk result (self.new ≡ put self.old name known) }
    {
        let (place, _) = self.known.insert_full(name, known)?;
        Ok(place)
    }

    // The families, in order of first mention.
    pub(crate) fn into_families(self, alloc: Global) -> Result<Vec<Family>, AllocError>
        ensures { IfOk result (λ fs. fs.items ≡ map family_from self) }
    {
        let mut families = Vec::new(alloc);
        for (name, known) in self.known {
            families.push(Family {
                name,
                kind: known.kind,
                helps: known.helps,
                types: known.types,
                late_type: known.late_type,
            })?;
        }
        Ok(families)
    }
}
