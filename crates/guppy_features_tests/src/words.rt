//! What the arguments ask.

use anyhow::bail;
use guppy_data::NamedFeatureDep;
use guppy_features::{CargoResolverVersion, StandardFeatures};
use guppy_target::Platform;
use std::alloc::Global;
use std::mem;

/// What the next argument is.
#[derive(Drop)]
enum Next {
    Option,
    Member,
    Features,
    Resolver,
    Triple,
    Settings,
}

/// The arguments as they are read.
#[derive(Drop)]
pub struct Words {
    alloc: Global,
    next: Next,
    triple: String,
    is_host: bool,
    /// The platform that builds.
    pub host: Vec<Platform>,
    /// The platforms that are built for.
    pub targets: Vec<Platform>,
    /// The names of the platform that builds, and of those that are built for.
    pub host_triples: Vec<String>,
    pub target_triples: Vec<String>,
    /// The names of the chosen members.
    pub members: Vec<String>,
    /// The values of `--features`.
    pub features: Vec<NamedFeatureDep>,
    /// Which features they are asked for beside these.
    pub standard: StandardFeatures,
    /// Whether tests are built.
    pub tests: bool,
    /// The resolver.
    pub resolver: CargoResolverVersion,
}

impl Words {
    pub fn new(alloc: Global) -> Self {
        Words {
            alloc,
            next: Next::Option,
            triple: String::new(alloc),
            is_host: false,
            host: Vec::new(alloc),
            targets: Vec::new(alloc),
            host_triples: Vec::new(alloc),
            target_triples: Vec::new(alloc),
            members: Vec::new(alloc),
            features: Vec::new(alloc),
            standard: StandardFeatures::Default,
            tests: false,
            resolver: CargoResolverVersion::V2,
        }
    }

    /// Reads one more argument.
    pub fn add(&mut self, word: String) -> anyhow::Result<()> {
        match mem::replace(&mut self.next, Next::Option) {
            Next::Option => self.add_option(word.as_str())?,
            Next::Member => self.members.push(word)?,
            Next::Features => self.add_features(word.as_str())?,
            Next::Resolver => self.resolver = resolver_of(word.as_str())?,
            Next::Triple => self.triple = word,
            Next::Settings => self.add_platform(word.as_str())?,
        }
        Ok(())
    }

    fn add_option(&mut self, word: &str) -> anyhow::Result<()> {
        match word {
            "-p" => self.next = Next::Member,
            "--features" => self.next = Next::Features,
            "--resolver" => self.next = Next::Resolver,
            "--host" | "--platform" => {
                self.is_host = word == "--host";
                self.next = Next::Triple;
            }
            "--cfgs" => self.next = Next::Settings,
            "--all-features" => self.standard = StandardFeatures::All,
            "--no-default-features" => {
                if self.standard == StandardFeatures::Default {
                    self.standard = StandardFeatures::None;
                }
            }
            "--tests" => self.tests = true,
            _ => bail!("no option is called so"),
        }
        Ok(())
    }

    // The values stand between commas and white space.
    fn add_features(&mut self, word: &str) -> anyhow::Result<()> {
        for list in word.split_whitespace() {
            for text in list.split(',') {
                if !text.is_empty() {
                    self.features.push(feature_of(self.alloc, text)?)?;
                }
            }
        }
        Ok(())
    }

    fn add_platform(&mut self, settings: &str) -> anyhow::Result<()> {
        let mut lines = String::new(self.alloc);
        for setting in settings.split(' ') {
            lines.push_str(setting)?;
            lines.push_str("\n")?;
        }
        let triple = mem::replace(&mut self.triple, String::new(self.alloc));
        let platform = Platform::new(self.alloc, triple.as_str(), lines.as_str())?;
        if self.is_host {
            self.host.push(platform)?;
            self.host_triples.push(triple)?;
        } else {
            self.targets.push(platform)?;
            self.target_triples.push(triple)?;
        }
        Ok(())
    }
}

// What the text asks for, as Cargo reads it.
fn feature_of(alloc: Global, text: &str) -> anyhow::Result<NamedFeatureDep> {
    let copy = |text: &str| String::from_str(alloc, text);
    let Some((dep_name, feature)) = text.split_once('/') else {
        if text.starts_with("dep:") {
            bail!("a feature begins with dep:");
        }
        return Ok(NamedFeatureDep::NamedFeature(copy(text)?));
    };
    if feature.contains('/') {
        bail!("a feature has several slashes");
    }
    Ok(NamedFeatureDep::DependencyNamedFeature {
        dep_name: copy(dep_name.strip_suffix("?").unwrap_or(dep_name))?,
        feature: copy(feature)?,
        weak: dep_name.ends_with("?"),
    })
}

fn resolver_of(word: &str) -> anyhow::Result<CargoResolverVersion> {
    match word {
        "1" => Ok(CargoResolverVersion::V1),
        "2" => Ok(CargoResolverVersion::V2),
        "3" => Ok(CargoResolverVersion::V3),
        _ => bail!("no resolver is called so"),
    }
}
