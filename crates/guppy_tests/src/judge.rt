//! Judges of searches, by what a search was given, whom it asked, and what it answered.
//!
//! They know nothing of the library but its directions: a graph is a list of links by their ends, and a set
//! of positions a list of truth values. Each rule of a resolve and of a buffered search is looked for in the
//! trace by itself, and the first that is broken is told.
use guppy::graph::DependencyDirection;
use std::process::Abort;

/// No position.
pub(super) const NOWHERE: usize = usize::MAX;

/// What a search was given: links by from, to and whether they are dev-only, a direction, and where it starts.
#[derive(Clone, Copy)]
pub(super) struct Given<'a> {
    pub(super) links: &'a [(usize, usize, bool)],
    pub(super) direction: DependencyDirection,
    pub(super) starts: &'a [bool],
}

/// What happened in a buffered search, in turn: a question about a position or about a link, and behind it each
/// link that was handed back.
#[derive(Clone, Copy, PartialEq)]
pub(super) enum Event {
    Discover(usize),
    Filter(usize),
    HandBack(usize),
}

pub(super) fn has(set: &[bool], position: usize) -> bool {
    set.get(position) == Some(&true)
}

impl<'a> Given<'a> {
    pub(super) fn new(
        links: &'a [(usize, usize, bool)],
        direction: DependencyDirection,
        starts: &'a [bool],
    ) -> Self {
        Given {
            links,
            direction,
            starts,
        }
    }

    /// The end that the link leaves, and the one that it leads to.
    pub(super) fn ends(&self, number: usize) -> (usize, usize) {
        match (self.links.get(number), self.direction) {
            (Some((from, to, _)), DependencyDirection::Forward) => (*from, *to),
            (Some((from, to, _)), DependencyDirection::Reverse) => (*to, *from),
            (None, _) => (NOWHERE, NOWHERE),
        }
    }

    /// Whether the search starts at the position, or a link leads to it that was shown and accepted.
    pub(super) fn is_included(&self, shown: &[(usize, bool)], position: usize) -> bool {
        for (link, is_accepted) in shown {
            if *is_accepted && self.ends(*link).1 == position {
                return true;
            }
        }
        has(self.starts, position)
    }

    // Whether the search starts at the position, or a link leads to it that was handed back.
    fn is_found(&self, events: &[Event], position: usize) -> bool {
        for event in events {
            if let Event::HandBack(link) = event {
                if self.ends(*link).1 == position {
                    return true;
                }
            }
        }
        has(self.starts, position)
    }

    /// The first rule that a resolve breaks which showed these links, each with the visitor's answer, and
    /// included this set; none where it is right.
    pub(super) fn broken_rule(
        &self,
        shown: &[(usize, bool)],
        set: &[bool],
    ) -> Option<&'static str> {
        for (place, (link, _)) in shown.iter().enumerate() {
            let before = &shown[..place];
            if before.contains(&(*link, true)) || before.contains(&(*link, false)) {
                return Some("shown twice");
            }
            if !self.is_included(before, self.ends(*link).0) {
                return Some("shown too early");
            }
        }
        for link in 0..self.links.len() {
            let is_shown = shown.contains(&(link, true)) || shown.contains(&(link, false));
            if is_shown != has(set, self.ends(link).0) {
                return Some("not what leaves the set");
            }
        }
        for position in 0..self.starts.len() {
            if has(set, position) != self.is_included(shown, position) {
                return Some("not what was reached");
            }
        }
        None
    }

    /// The same of a buffered search.
    pub(super) fn broken_buffered_rule(
        &self,
        events: &[Event],
        set: &[bool],
    ) -> Option<&'static str> {
        for (place, event) in events.iter().enumerate() {
            let before = &events[..place];
            let is_timely = match event {
                Event::Discover(position) => self.is_found(before, *position),
                Event::Filter(link) => before.contains(&Event::Discover(self.ends(*link).0)),
                Event::HandBack(_) => continue,
            };
            if before.contains(event) {
                return Some("asked twice");
            }
            if !is_timely {
                return Some("asked too early");
            }
        }
        for link in 0..self.links.len() {
            if events.contains(&Event::Filter(link)) != has(set, self.ends(link).0) {
                return Some("not what leaves the set");
            }
        }
        for position in 0..self.starts.len() {
            if has(set, position) != events.contains(&Event::Discover(position)) {
                return Some("not what was discovered");
            }
            if has(set, position) != self.is_found(events, position) {
                return Some("not what was reached");
            }
        }
        None
    }
}

// What a judge is told of a search from the first of four positions, over the links 0 to 1, 0 to 2, 1 to 3 and
// 2 to 3, and the rule that it has to find broken.
struct Trial<T: 'static> {
    name: &'static str,
    trace: &'static [T],
    set: [bool; 4],
    broken: Option<&'static str>,
}

const LINKS: [(usize, usize, bool); 4] = [
    (0, 1, false),
    (0, 2, false),
    (1, 3, false),
    (2, 3, false),
];

const ALL: [bool; 4] = [true; 4];

const RESOLVES: &[Trial<(usize, bool)>] = &[
    Trial {
        name: "all accepted",
        trace: &[(0, true), (1, true), (2, true), (3, true)],
        set: ALL,
        broken: None,
    },
    Trial {
        name: "one refused",
        trace: &[(0, true), (2, true), (1, false)],
        set: [true, true, false, true],
        broken: None,
    },
    Trial {
        name: "a link left out",
        trace: &[(0, true), (1, true), (3, true)],
        set: ALL,
        broken: Some("not what leaves the set"),
    },
    Trial {
        name: "a link shown twice",
        trace: &[(0, true), (1, true), (2, true), (3, true), (2, false)],
        set: ALL,
        broken: Some("shown twice"),
    },
    Trial {
        name: "a refused link followed",
        trace: &[(0, true), (1, false), (2, true), (3, true)],
        set: ALL,
        broken: Some("shown too early"),
    },
    Trial {
        name: "a refused link's end included",
        trace: &[(0, true), (1, true), (2, false), (3, false)],
        set: ALL,
        broken: Some("not what was reached"),
    },
    Trial {
        name: "a link shown before the end that it leaves",
        trace: &[(0, true), (3, true), (1, true), (2, true)],
        set: ALL,
        broken: Some("shown too early"),
    },
    Trial {
        name: "a set too large",
        trace: &[(0, false), (1, false)],
        set: [true, false, false, true],
        broken: Some("not what was reached"),
    },
    Trial {
        name: "a set too small",
        trace: &[(0, true), (1, true), (2, true), (3, true)],
        set: [true, true, true, false],
        broken: Some("not what was reached"),
    },
    Trial {
        name: "no set",
        trace: &[],
        set: [false; 4],
        broken: Some("not what was reached"),
    },
    Trial {
        name: "an unknown link",
        trace: &[(0, false), (1, false), (4, false)],
        set: [true, false, false, false],
        broken: Some("shown too early"),
    },
];

const BUFFERED: &[Trial<Event>] = &[
    Trial {
        name: "each link handed back by itself",
        trace: &[
            Event::Discover(0),
            Event::Filter(0),
            Event::HandBack(0),
            Event::Filter(1),
            Event::Discover(1),
            Event::Filter(2),
        ],
        set: [true, true, false, false],
        broken: None,
    },
    Trial {
        name: "a link handed back ahead, and twice",
        trace: &[
            Event::Discover(0),
            Event::HandBack(3),
            Event::HandBack(3),
            Event::Discover(3),
            Event::Filter(0),
            Event::Filter(1),
        ],
        set: [true, false, false, true],
        broken: None,
    },
    Trial {
        name: "a link left out",
        trace: &[Event::Discover(0), Event::Filter(1)],
        set: [true, false, false, false],
        broken: Some("not what leaves the set"),
    },
    Trial {
        name: "a position left out",
        trace: &[
            Event::Discover(0),
            Event::HandBack(3),
            Event::Filter(0),
            Event::Filter(1),
        ],
        set: [true, false, false, true],
        broken: Some("not what was discovered"),
    },
    Trial {
        name: "a link asked about twice",
        trace: &[
            Event::Discover(0),
            Event::Filter(0),
            Event::Filter(1),
            Event::Filter(0),
        ],
        set: [true, false, false, false],
        broken: Some("asked twice"),
    },
    Trial {
        name: "a position asked about twice",
        trace: &[
            Event::Discover(0),
            Event::Filter(0),
            Event::Filter(1),
            Event::Discover(0),
        ],
        set: [true, false, false, false],
        broken: Some("asked twice"),
    },
    Trial {
        name: "a link followed that wasn't handed back",
        trace: &[
            Event::Discover(0),
            Event::Filter(0),
            Event::Discover(1),
            Event::Filter(1),
            Event::Filter(2),
        ],
        set: [true, true, false, false],
        broken: Some("asked too early"),
    },
    Trial {
        name: "a position asked about before it was found",
        trace: &[
            Event::Discover(0),
            Event::Discover(1),
            Event::Filter(0),
            Event::HandBack(0),
            Event::Filter(1),
            Event::Filter(2),
        ],
        set: [true, true, false, false],
        broken: Some("asked too early"),
    },
    Trial {
        name: "a link asked about before the position that it leaves",
        trace: &[Event::Filter(0), Event::Discover(0), Event::Filter(1)],
        set: [true, false, false, false],
        broken: Some("asked too early"),
    },
    Trial {
        name: "a set too large",
        trace: &[Event::Discover(0), Event::Filter(0), Event::Filter(1)],
        set: [true, false, false, true],
        broken: Some("not what was discovered"),
    },
    Trial {
        name: "a set too small",
        trace: &[
            Event::Discover(0),
            Event::Filter(0),
            Event::Filter(1),
            Event::HandBack(3),
        ],
        set: [true, false, false, false],
        broken: Some("not what was reached"),
    },
];

fn assert_broken<T>(rt: &impl Abort, trial: &Trial<T>, broken: Option<&'static str>) {
    assert!(rt; broken == trial.broken, "{}: {broken:?}", trial.name);
}

#[test]
fn judges_are_tried(rt: HostRuntime) {
    let starts = &[true, false, false, false];
    let given = Given::new(&LINKS, DependencyDirection::Forward, starts);
    for trial in RESOLVES {
        assert_broken(&rt, trial, given.broken_rule(trial.trace, &trial.set));
    }
    for trial in BUFFERED {
        assert_broken(
            &rt,
            trial,
            given.broken_buffered_rule(trial.trace, &trial.set),
        );
    }
}
