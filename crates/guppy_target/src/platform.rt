//! What is known of a platform.
ghost use Rattle.std.specs.Prelude.{◌≡◌, ◌↔◌, ℕ, List, IfOk, Err, IsTrue, is_some, map, option_map, option_copied};
ghost use Rattle.std.specs.List.{list_any};
ghost use Rattle.std.specs.Str.{bytes_eq};
ghost use Rattle.std.specs.Str.Lines.{lines};
ghost use Rattle.guppy_target.specs.Cfg.{Setting, name, pair, is_among, setting_eq};
ghost use Rattle.guppy_target.specs.Reading.{line_at, are_settings};
ghost use Rattle.guppy_target.specs.Platform.{setting_of, part_setting, AreLines, IsFirstFault};

use crate::fault::PlatformFault;
use crate::text::{after_spaces, mark_at, quoted_at, word_at};
use std::alloc::{AllocError, Global};
use std::marker::Model;

// What is set for a platform: a name, or a key with a value.
#[derive(Debug, Drop)]
pub(crate) enum Cfg {
    Name(Vec<u8>),
    Pair(Vec<u8>, Vec<u8>),
}

impl Cfg {
    fn is_name(&self, word: &[u8]) -> bool
        ensures { result ≡ setting_eq (name word.now) (setting_of self.now) }
    {
        match self {
            Cfg::Name(name) => word == name.as_slice(),
            Cfg::Pair(_, _) => false,
        }
    }

    fn is_pair(&self, key: &[u8], value: &[u8]) -> bool
        ensures { result ≡ setting_eq (pair key.now value.now) (setting_of self.now) }
    {
        match self {
            Cfg::Name(_) => false,
            Cfg::Pair(own, set) => key == own.as_slice() && value == set.as_slice(),
        }
    }
}

fn has_name(cfgs: &[Cfg], word: &[u8]) -> bool
    ensures { result ≡ list_any (λ cfg. setting_eq (name word.now) (setting_of cfg)) cfgs.now }
{
    cfgs.iter().any(|cfg| cfg.is_name(word))
}

fn has_pair(cfgs: &[Cfg], key: &[u8], value: &[u8]) -> bool
    ensures { result ≡ list_any (λ cfg. setting_eq (pair key.now value.now) (setting_of cfg)) cfgs.now }
{
    cfgs.iter().any(|cfg| cfg.is_pair(key, value))
}

// The name on a line, or the key and the value.
#[tactic(auto, unfolding(crate::specs::Reading::line_at))]
fn parts(line: &[u8]) -> Option<(&[u8], Option<&[u8]>)>
    ensures { option_map (λ x. part_setting x.0.now (option_copied x.1)) result ≡ line_at line.now }
{
    let (word, rest) = word_at(line)?;
    match mark_at(b'=', rest) {
        None => {
            if after_spaces(rest).is_empty() {
                Some((word, None))
            } else {
                None
            }
        }
        Some(text) => {
            let (value, rest) = quoted_at(text)?;
            if after_spaces(rest).is_empty() {
                Some((word, Some(value)))
            } else {
                None
            }
        }
    }
}

fn is_setting(line: &str) -> bool
    ensures { result ≡ is_some (line_at line.now) }
{
    parts(line.as_bytes()).is_some()
}

/// Whether each line is a name or `key="value"`, so that [`Platform::new`] makes a platform of them, given memory. Takes
/// time linear in the text, and no memory.
pub fn are_settings(cfgs: &str) -> bool
    ensures read { result ≡ are_settings cfgs.now }
    ensures exact { IsTrue result
        ↔ ((settings : List Setting) × AreLines (lines cfgs.now) settings) }
{
    cfgs.lines().all(is_setting)
}

fn cfg_of(alloc: Global, word: &[u8], value: Option<&[u8]>) -> Result<Cfg, AllocError>
    ensures { IfOk result
        (λ cfg. setting_of cfg ≡ part_setting word.now (option_copied value.entry)) }
{
    match value {
        None => Ok(Cfg::Name(word.to_vec(alloc)?)),
        Some(value) => Ok(Cfg::Pair(word.to_vec(alloc)?, value.to_vec(alloc)?)),
    }
}

/// What a compiler says of a platform, and its name.
#[derive(Debug, Drop)]
pub struct Platform {
    triple: String,
    cfgs: Vec<Cfg>,
}

impl Model for Platform {
    ghost use Rattle.std.specs.Prelude.{map};
    ghost use Rattle.std.specs.String.{string_bytes};
    ghost use Rattle.guppy_target.specs.Platform.{PlatformData, setting_of};

    ghost Value = { PlatformData };

    ghost view = { λ p. record { triple = string_bytes p.triple; settings = map setting_of p.cfgs.items } };
}

impl Platform {
    /// The platform of this name, for which a compiler prints these lines: of Rust's, with
    /// `rustc --print cfg --target TRIPLE`. A line is a name, as `unix`, or a key with a value, as
    /// `target_os="linux"`.
    ///
    /// `NotASetting` tells the first line that is neither. Takes time and room for the text.
    pub fn new(alloc: Global, triple: &str, cfgs: &str) -> Result<Platform, PlatformFault>
        ensures triple { IfOk result (λ p. p.triple ≡ triple.now) }
        ensures settings { IfOk result (λ p. AreLines (lines cfgs.now) p.settings) }
        ensures fault { (n : ℕ) → result ≡ Err (PlatformFault.NotASetting n)
            → IsFirstFault (lines cfgs.now) n }
    {
        let triple = String::from_str(alloc, triple)?;
        let mut found = Vec::new(alloc);
        for line in cfgs.lines() {
            match parts(line.as_bytes()) {
                None => return Err(PlatformFault::NotASetting(found.len())),
                Some((word, value)) => found.push(cfg_of(alloc, word, value)?)?,
            }
        }
        Ok(Platform {
            triple,
            cfgs: found,
        })
    }

    /// The platform's name. Takes constant time, and no memory.
    pub fn triple_str(&self) -> &str
        ensures { result.now ≡ self.now.triple }
    {
        self.triple.as_str()
    }

    pub(crate) fn has_name(&self, word: &[u8]) -> bool
        ensures { result ≡ is_among self.now.settings (name word.now) }
    {
        has_name(&self.cfgs, word)
    }

    pub(crate) fn has_pair(&self, key: &[u8], value: &[u8]) -> bool
        ensures { result ≡ is_among self.now.settings (pair key.now value.now) }
    {
        has_pair(&self.cfgs, key, value)
    }

    pub(crate) fn is_named(&self, text: &[u8]) -> bool
        ensures { result ≡ bytes_eq text.now self.now.triple }
    {
        text == self.triple.as_bytes()
    }
}
