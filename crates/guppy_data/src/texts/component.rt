ghost use Rattle.std.specs.Prelude.{◌≡◌, ◌<◌, length};

/// A component of a path. They ascend in the order of their declaration, two names by their bytes.
#[derive(Clone, Copy, Debug, PartialEq, Eq, PartialOrd, Ord)]
pub enum Component<'a> {
    /// The slash, or the slashes, at the front.
    RootDir,
    /// `.` at the front.
    CurDir,
    /// `..`, wherever it stands.
    ParentDir,
    /// A name between slashes.
    Normal(&'a str),
}

/// The components of a path that are still to come, from the front.
#[derive(Clone, Debug, Drop)]
pub struct Components<'a> {
    lead: Option<Component<'a>>,
    rest: &'a str,
}

impl<'a> Components<'a> {
    ghost use Rattle.std.specs.Prelude.{◌++◌};
    ghost use Rattle.guppy_data.specs.Path.{components, parts, part_of};
    ghost use Rattle.guppy_data.specs.Component.{parts_left};

    pub(crate) fn new(text: &'a str) -> Self
        ensures { parts_left result ≡ components text.now }
    {
        let lead = if text.starts_with('/') {
            Some(Component::RootDir)
        } else if text == "." || text.starts_with("./") {
            Some(Component::CurDir)
        } else {
            None
        };
        Components { lead, rest: text }
    }

    /// Takes what stands before the next slash, and the slash.
    fn piece(&mut self) -> &'a str
        requires { 0 < length self.old.rest.now }
        ensures lead { self.new.lead ≡ self.old.lead }
        ensures cut { parts self.old.rest.now ≡ part_of result.now ++ parts self.new.rest.now }
        ensures shorter { length self.new.rest.now < length self.old.rest.now }
    {
        match self.rest.split_once('/') {
            Some((piece, rest)) => {
                self.rest = rest;
                piece
            }
            None => {
                let piece = self.rest;
                self.rest = "";
                piece
            }
        }
    }
}

impl<'a> Iterator for Components<'a> {
    ghost use Rattle.std.specs.Iterator.{YieldsFirstBy, item_count};
    ghost use Rattle.guppy_data.specs.Component.{part_shown, parts_left};

    type Item = Component<'a>;

    ghost next_gives = { YieldsFirstBy part_shown parts_left };

    ghost remaining = { item_count parts_left };

    fn next(&mut self) -> Option<Component<'a>> {
        if let Some(lead) = self.lead.take() {
            return Some(lead);
        }
        while !self.rest.is_empty() {
            match self.piece() {
                "" | "." => {}
                ".." => return Some(Component::ParentDir),
                name => return Some(Component::Normal(name)),
            }
        }
        None
    }
}
