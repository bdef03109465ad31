//! Values as people read them.
ghost use Rattle.std.specs.Prelude.{◌≡◌, ℕ, List, ◌*◌, ◌/◌, ◌^◌, ◌<◌, ◌≤◌, ◌++◌, ◌∷◌, [], OnOk, IfOk, MatchResult, string_bytes, codes, unsigned_abs, not, ◌&&◌, ◌==◌, if◌then◌else◌};
ghost use Rattle.pr_num.specs.Half.{below_zero};
ghost use Rattle.pr_num.specs.Shown.{shown};
ghost use Rattle.pr_num.specs.Units.{IsNano};
ghost use Rattle.pr_tmpl.specs.Decimals.{sig4, fixed, cut_places, signed_text};
ghost use Rattle.pr_tmpl.specs.Humanized.{great, small, scaled_text, humanized_text, percent_text, unit_text, minutes_text, hours_text, days_text, clock_text, seconds_text, on_finite, fixed_value, humanize, humanize_percentage, humanize_duration};

use crate::humanize::digits::{push_cut_places, push_sig4, push_whole, push_whole_places, rounded};
use pr_num::Num;
use std::alloc::AllocError;

/// One unit, in units of 10^-9.
const ONE: u128 = 1_000_000_000;

fn push_unit(out: &mut String, number: u128, unit: &str) -> Result<(), AllocError>
    ensures { OnOk result (string_bytes out.new ≡ string_bytes out.old ++ unit_text number unit.now) }
{
    push_whole(out, number)?;
    out.push_str(unit)
}

fn push_minutes(out: &mut String, seconds: u128) -> Result<(), AllocError>
    ensures { OnOk result (string_bytes out.new ≡ string_bytes out.old ++ minutes_text seconds) }
{
    push_unit(out, seconds / 60, "m ")?;
    push_unit(out, seconds % 60, "s")
}

fn push_hours(out: &mut String, seconds: u128) -> Result<(), AllocError>
    ensures { OnOk result (string_bytes out.new ≡ string_bytes out.old ++ hours_text seconds) }
{
    push_unit(out, seconds / 3_600, "h ")?;
    push_minutes(out, seconds % 3_600)
}

fn push_days(out: &mut String, seconds: u128) -> Result<(), AllocError>
    ensures { OnOk result (string_bytes out.new ≡ string_bytes out.old ++ days_text seconds) }
{
    push_unit(out, seconds / 86_400, "d ")?;
    push_hours(out, seconds % 86_400)
}

/// Appends whole seconds, from the first of days, hours and minutes that is not 0.
#[tactic(auto, unfolding(crate::specs::Humanized::clock_text))]
fn push_clock(out: &mut String, seconds: u128) -> Result<(), AllocError>
    ensures { OnOk result (string_bytes out.new ≡ string_bytes out.old ++ clock_text seconds) }
{
    if seconds >= 86_400 {
        push_days(out, seconds)
    } else if seconds >= 3_600 {
        push_hours(out, seconds)
    } else {
        push_minutes(out, seconds)
    }
}

fn push_lettered(
    out: &mut String,
    places: u32,
    number: u128,
    letter: &str,
) -> Result<(), AllocError>
    requires few { places ≤ 30 }
    requires small { number < 10 ^ 29 }
    ensures { OnOk result (string_bytes out.new ≡ string_bytes out.old ++ (sig4 places number ++ letter.now)) }
{
    push_sig4(out, places, number)?;
    out.push_str(letter)
}

/// Appends a number of units of 10^-9, 1 at least, below 1000 with the letter of what it was
/// divided by.
#[tactic(auto, unfolding(crate::specs::Humanized::great))]
fn push_great(out: &mut String, number: u128) -> Result<(), AllocError>
    requires { number < 10 ^ 29 }
    ensures { OnOk result (string_bytes out.new ≡ string_bytes out.old ++ great 9 number [] (codes "kMGTPE")) }
{
    if number < 1_000 * ONE {
        push_lettered(out, 9, number, "")
    } else if number < 1_000_000 * ONE {
        push_lettered(out, 12, number, "k")
    } else if number < 1_000_000_000 * ONE {
        push_lettered(out, 15, number, "M")
    } else if number < 1_000_000_000_000 * ONE {
        push_lettered(out, 18, number, "G")
    } else if number < 1_000_000_000_000_000 * ONE {
        push_lettered(out, 21, number, "T")
    } else if number < 1_000_000_000_000_000_000 * ONE {
        push_lettered(out, 24, number, "P")
    } else {
        push_lettered(out, 27, number, "E")
    }
}

/// Appends a number of units of 10^-9, below 1, with the letter of what it was multiplied by.
#[tactic(auto, unfolding(crate::specs::Humanized::small))]
fn push_small(out: &mut String, number: u128) -> Result<(), AllocError>
    requires { number < 10 ^ 29 }
    ensures { OnOk result (string_bytes out.new ≡ string_bytes out.old ++ small 9 number [] (codes "mun")) }
{
    if number >= 1_000_000_000 {
        push_lettered(out, 9, number, "")
    } else if number >= 1_000_000 {
        push_lettered(out, 6, number, "m")
    } else if number >= 1_000 {
        push_lettered(out, 3, number, "u")
    } else {
        push_lettered(out, 0, number, "n")
    }
}

#[tactic(auto, unfolding(crate::specs::Humanized::scaled_text))]
fn push_humanized(out: &mut String, number: u128) -> Result<(), AllocError>
    requires { number < 10 ^ 29 }
    ensures { OnOk result (string_bytes out.new ≡ string_bytes out.old ++ humanized_text number) }
{
    if number == 0 {
        out.push_str("0")
    } else if number >= ONE {
        push_great(out, number)
    } else {
        push_small(out, number)
    }
}

#[tactic(auto, unfolding(crate::specs::Humanized::percent_text))]
fn push_percent(out: &mut String, number: u128) -> Result<(), AllocError>
    requires { number < 10 ^ 29 }
    ensures { OnOk result (string_bytes out.new ≡ string_bytes out.old ++ percent_text number) }
{
    push_lettered(out, 7, number, "%")
}

#[tactic(auto, unfolding(crate::specs::Humanized::seconds_text))]
fn push_seconds(out: &mut String, number: u128) -> Result<(), AllocError>
    requires { number < 10 ^ 29 }
    ensures { OnOk result (string_bytes out.new ≡ string_bytes out.old ++ seconds_text number) }
{
    if number < ONE {
        push_humanized(out, number)?;
        out.push_str("s")
    } else if number < 60 * ONE {
        push_lettered(out, 9, number, "s")
    } else {
        push_clock(out, number / ONE)
    }
}

fn is_below_zero(units: i128) -> bool
    ensures { result ≡ below_zero units }
{
    units < 0
}

/// Whether a number that was rounded to this magnitude has a sign.
fn is_signed(units: i128, magnitude: u128) -> bool
    ensures { result ≡ below_zero units && not (magnitude == 0) }
{
    units < 0 && magnitude != 0
}

fn push_sign(out: &mut String, negative: bool) -> Result<(), AllocError>
    ensures { OnOk result (string_bytes out.new ≡ string_bytes out.old ++ (if negative then codes "-" else [])) }
{
    if negative { out.push_str("-") } else { Ok(()) }
}

/// The units of a value, or the text of one that is not finite.
#[tactic(auto, unfolding(pr_num::specs::Shown::shown), using(crate::proofs::ShownText::units_cut))]
fn units_of(v: Num) -> Result<i128, &'static str>
    ensures on { (f : ℕ → List ℕ) → MatchResult result (λ z. on_finite f v ≡ signed_text f z) (λ t. on_finite f v ≡ t.now) }
    ensures fixed { (places : ℕ) → MatchResult result (λ z. fixed_value places v ≡ fixed places z) (λ t. fixed_value places v ≡ t.now) }
    ensures shown { MatchResult result (λ z. shown v ≡ signed_text (cut_places 9) z) (λ t. shown v ≡ t.now) }
    ensures small { IfOk result IsNano }
{
    match v {
        Num::Finite(value) => Ok(value.units()),
        Num::NaN => Err("NaN"),
        Num::PosInf => Err("+Inf"),
        Num::NegInf => Err("-Inf"),
    }
}

/// Appends a value as it is printed.
pub fn push_shown(out: &mut String, v: Num) -> Result<(), AllocError>
    ensures { OnOk result (string_bytes out.new ≡ string_bytes out.old ++ shown v) }
{
    match units_of(v) {
        Ok(units) => {
            push_sign(out, is_below_zero(units))?;
            push_cut_places(out, 9, units.unsigned_abs())
        }
        Err(text) => out.push_str(text),
    }
}

/// Appends a number of units of 10^-9 rounded to so many places. One that rounds to zero has no
/// sign.
#[tactic(auto, unfolding(crate::specs::Decimals::fixed))]
fn push_rounded(out: &mut String, places: u32, units: i128) -> Result<(), AllocError>
    requires few { places ≤ 9 }
    requires small { IsNano units }
    ensures { OnOk result (string_bytes out.new ≡ string_bytes out.old ++ fixed places units) }
{
    let magnitude = rounded(places, units.unsigned_abs());
    push_sign(out, is_signed(units, magnitude))?;
    push_whole_places(out, places, magnitude)
}

/// Appends a value rounded to so many places.
pub fn push_fixed(out: &mut String, places: u32, v: Num) -> Result<(), AllocError>
    requires { places ≤ 9 }
    ensures { OnOk result (string_bytes out.new ≡ string_bytes out.old ++ fixed_value places v) }
{
    match units_of(v) {
        Ok(units) => push_rounded(out, places, units),
        Err(text) => out.push_str(text),
    }
}

/// Appends a value with four significant digits and the letter of its thousands or thousandths.
pub fn push_humanize(out: &mut String, v: Num) -> Result<(), AllocError>
    ensures { OnOk result (string_bytes out.new ≡ string_bytes out.old ++ humanize v) }
{
    match units_of(v) {
        Ok(units) => {
            push_sign(out, is_below_zero(units))?;
            push_humanized(out, units.unsigned_abs())
        }
        Err(text) => out.push_str(text),
    }
}

/// Appends a value as a percentage.
pub fn push_percentage(out: &mut String, v: Num) -> Result<(), AllocError>
    ensures { OnOk result (string_bytes out.new ≡ string_bytes out.old ++ humanize_percentage v) }
{
    match units_of(v) {
        Ok(units) => {
            push_sign(out, is_below_zero(units))?;
            push_percent(out, units.unsigned_abs())
        }
        Err(text) => out.push_str(text),
    }
}

/// Appends a number of seconds as a duration.
pub fn push_duration(out: &mut String, v: Num) -> Result<(), AllocError>
    ensures { OnOk result (string_bytes out.new ≡ string_bytes out.old ++ humanize_duration v) }
{
    match units_of(v) {
        Ok(units) => {
            push_sign(out, is_below_zero(units))?;
            push_seconds(out, units.unsigned_abs())
        }
        Err(text) => out.push_str(text),
    }
}
