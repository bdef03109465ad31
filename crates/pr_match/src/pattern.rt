// Patterns, and searchers for them.
ghost use Rattle.std.specs.Prelude.{◌≡◌, true, false, IfOk, OnOk};
ghost use Rattle.pr_match.specs.Pattern.{is_readable, is_pattern, anchored, matches_whole, expanded};
ghost use Rattle.pr_match.specs.private.Compiled.{IsFrom, fault_of, syntax_fault};

use crate::fault::MatchError;
use pr_labels::words_crate::Text;
use regex::{Error, Matcher, Regex, Template};
use regex_syntax::{Config, ErrorKind, parse};
use std::alloc::{AllocError, Global};
use std::marker::Model;

/// A pattern that is met by whole texts, line feeds included. (Prometheus: Querying basics.)
/// Contracts see it as its text.
#[derive(Drop)]
pub struct Pattern {
    regex: Box<Regex>,
    text: Text,
}

impl Model for Pattern {
    ghost use Rattle.std.specs.Prelude.{List, ℕ};
    ghost use Rattle.pr_match.specs.Pattern.{anchored};
    ghost use Rattle.pr_match.specs.private.Compiled.{IsFrom};

    ghost Value = { List ℕ };

    ghost view = { λ p. p.text };

    ghost invariant = { λ p. IsFrom (anchored p.text) p.regex.value };
}

impl Pattern {
    /// The pattern of a text. Unless memory runs out, it is `BadPattern` exactly where the text,
    /// alone or anchored as `^(?s:text)$`, is no regular expression of the crate `regex`, or is
    /// nested in more than 250 levels. A pattern that is too large to compile wants memory. (Own
    /// choice: Prometheus reads RE2's syntax.)
    #[tactic(auto, unfolding(crate::specs::Pattern::is_pattern))]
    pub fn build(alloc: Global, text: &str) -> Result<Pattern, MatchError>
        ensures text { IfOk result (λ p. p ≡ text.now) }
        ensures good { OnOk result (is_pattern text.now ≡ true) }
        ensures bad { result ≡ Err MatchError.BadPattern → is_pattern text.now ≡ false }
    {
        read(alloc, text)?;
        let source = format!(in alloc; "^(?s:{text})$")?;
        Ok(Pattern {
            regex: Box::new(alloc, compile(alloc, source.as_str())?)?,
            text: Text::from_str(alloc, text)?,
        })
    }

    /// A searcher, which costs much more to make than to ask.
    pub fn searcher(&self, alloc: Global) -> Result<Searcher<'_>, AllocError>
        ensures { IfOk result (λ s. s ≡ self.now) }
    {
        Ok(Searcher {
            matcher: Box::new(alloc, self.regex.matcher(alloc)?)?,
            text: self.text.as_str(),
        })
    }

    /// Whether the pattern matches the whole text. Where many texts are asked about, use one
    /// `searcher`.
    pub fn matches(&self, alloc: Global, text: &str) -> Result<bool, AllocError>
        ensures { IfOk result (λ found. found ≡ matches_whole self.now text.now) }
    {
        let mut searcher = self.searcher(alloc)?;
        Ok(searcher.matches(text))
    }

    /// An expander with the template, which costs much more to make than to ask.
    pub fn expander<'p>(
        &'p self,
        alloc: Global,
        template: &'p str,
    ) -> Result<Expander<'p>, AllocError>
        ensures pattern { IfOk result (λ e. e.pattern ≡ self.now) }
        ensures template { IfOk result (λ e. e.template ≡ template.now) }
    {
        Ok(Expander {
            template: Template::new(alloc, self.regex.capture_names(), template)?,
            matcher: self.regex.matcher(alloc)?,
            pattern_text: self.text.as_str(),
            template_text: template,
        })
    }

    /// The template with what each group matched in the place of `$1`, `${1}`, `$name` and
    /// `${name}`, and `$` in that of `$$`. It is `None` exactly where the pattern does not match
    /// the whole text. (Prometheus: Query functions, `label_replace`.) Where many texts are asked
    /// about, use one `expander`.
    pub fn expand(
        &self,
        alloc: Global,
        text: &str,
        template: &str,
    ) -> Result<Option<Text>, AllocError>
        ensures { IfOk result (λ made. made ≡ expanded self.now text.now template.now) }
    {
        let mut expander = self.expander(alloc, template)?;
        expander.expand(alloc, text)
    }
}

/// A searcher for one pattern, to be asked about many texts. Contracts see it as the pattern's
/// text.
#[derive(Drop)]
pub struct Searcher<'p> {
    matcher: Box<Matcher<'p>>,
    text: &'p str,
}

impl<'p> Model for Searcher<'p> {
    ghost use Rattle.std.specs.Prelude.{List, ℕ};
    ghost use Rattle.pr_match.specs.private.Compiled.{Decides};

    ghost Value = { List ℕ };

    ghost view = { λ s. s.text.now };

    ghost invariant = { λ s. Decides s.text.now s.matcher.value };
}

impl<'p> Searcher<'p> {
    /// Whether the pattern matches the whole text.
    pub fn matches(&mut self, text: &str) -> bool
        ensures found { result ≡ matches_whole self.old text.now }
        ensures same { self.new ≡ self.old }
    {
        self.matcher.is_match(text)
    }
}

/// A pattern with a template, to be asked about many texts. Contracts see the texts of the two.
#[derive(Drop)]
pub struct Expander<'p> {
    matcher: Matcher<'p>,
    template: Template,
    pattern_text: &'p str,
    template_text: &'p str,
}

impl<'p> Model for Expander<'p> {
    ghost use Rattle.pr_match.specs.Pattern.{Replacement, replacement};
    ghost use Rattle.regex.specs.Strings.{matcher_pattern};
    ghost use Rattle.pr_match.specs.private.Compiled.{Expands};

    ghost Value = { Replacement };

    ghost view = { λ e. replacement e.pattern_text.now e.template_text.now };

    ghost invariant = { λ e. Expands e.pattern_text.now e.template_text.now (matcher_pattern e.matcher) e.template };
}

impl<'p> Expander<'p> {
    /// What `Pattern::expand` makes of the text.
    pub fn expand(&mut self, alloc: Global, text: &str) -> Result<Option<Text>, AllocError>
        ensures made { IfOk result (λ made. made ≡ expanded self.old.pattern text.now self.old.template) }
        ensures same { self.new ≡ self.old }
    {
        match self.matcher.captures(text) {
            Some(captures) => {
                let mut out = String::new(alloc);
                captures.expand(alloc, &self.template, &mut out)?;
                Ok(Some(Text::new(out)))
            }
            None => Ok(None),
        }
    }
}

// Reads a source, to see that it can be read: that takes a small part of the time that compiling
// takes.
fn read(alloc: Global, source: &str) -> Result<(), MatchError>
    ensures good { OnOk result (is_readable source.now ≡ true) }
    ensures bad { result ≡ Err MatchError.BadPattern → is_readable source.now ≡ false }
{
    let _parsed = match parse(alloc, source, &Config::default()) {
        Ok(parsed) => parsed,
        Err(error) => return Err(syntax_fault(error.kind)),
    };
    Ok(())
}

// What a refusal to read means.
fn syntax_fault(kind: ErrorKind) -> MatchError
    ensures { result ≡ syntax_fault kind }
{
    match kind {
        ErrorKind::OutOfMemory => MatchError::Memory,
        _ => MatchError::BadPattern,
    }
}

// What a source compiles to.
fn compile(alloc: Global, source: &str) -> Result<Regex, MatchError>
    ensures read { IfOk result (IsFrom source.now) }
    ensures good { OnOk result (is_readable source.now ≡ true) }
    ensures bad { result ≡ Err MatchError.BadPattern → is_readable source.now ≡ false }
{
    match Regex::new(alloc, source) {
        Ok(regex) => Ok(regex),
        Err(error) => Err(fault_of(&error)),
    }
}

// What a refusal to compile means: each fault of syntax, the limit on nesting among them, is the
// text's.
fn fault_of(error: &Error) -> MatchError
    ensures { result ≡ fault_of error.now }
{
    match error {
        Error::Syntax(_) => MatchError::BadPattern,
        _ => MatchError::Memory,
    }
}
