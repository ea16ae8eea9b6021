ghost use Rattle.std.specs.Prelude.{◌≡◌, ◌++◌, IfOk, OnErr, OnOk, string_bytes};
ghost use Rattle.sig_counts.specs.Families as spec;
ghost use Rattle.sig_counts.specs.Tallies.{IsCounted};

use crate::{Tally, put_number, put_value};
use sig_json::{Memory, Text};
use std::alloc::Global;
use std::marker::Model;

/// What a server counted since it began to serve. It keeps its allocator.
#[derive(Drop)]
pub struct Counts {
    alloc: Global,
    started: u64,
    time: u64,
    links_open: u64,
    door_faults: u64,
    requests: Tally,
    links: Tally,
    pushes: Tally,
    reported: Tally,
}

impl Model for Counts {
    ghost use Rattle.sig_counts.specs.Families.{Figures};

    ghost Value = { Figures };

    ghost view = { λ c. record {
      started = c.started;
      time = c.time;
      links_open = c.links_open;
      door_faults = c.door_faults;
      requests = c.requests;
      links = c.links;
      pushes = c.pushes;
      reported = c.reported;
    } };
}

impl Counts {
    ghost use Rattle.std.specs.Prelude.{◌+◌, ◌-◌, [], min, ◌^◌};

    /// Nothing came, and no time was told. It takes no memory.
    pub fn new(alloc: Global) -> Counts
        ensures { result ≡ record { started = 0; time = 0; links_open = 0; door_faults = 0; requests = []; links = []; pushes = []; reported = [] } }
    {
        Counts {
            alloc,
            started: 0,
            time: 0,
            links_open: 0,
            door_faults: 0,
            requests: Tally::new(alloc),
            links: Tally::new(alloc),
            pushes: Tally::new(alloc),
            reported: Tally::new(alloc),
        }
    }

    /// It is this time, in seconds since 1970: that of the start, where none was told before.
    pub fn tick(&mut self, now: u64)
        ensures { self.new ≡ record self.old { started = spec.start_by self.old.started now; time = now } }
    {
        self.time = now;
        if self.started == 0 {
            self.started = now;
        }
    }

    /// A link came.
    pub fn link_came(&mut self)
        ensures { self.new ≡ record self.old { links_open = min (self.old.links_open + 1) (2 ^ 64 - 1) } }
    {
        self.links_open = self.links_open.saturating_add(1);
    }

    /// A link ended by this cause.
    pub fn link_ended(&mut self, cause: &str)
        ensures counted { IsCounted cause.now self.old.links self.new.links }
        ensures rest { self.new ≡ record self.old { links_open = self.old.links_open - 1; links = self.new.links } }
    {
        self.links_open = self.links_open.saturating_sub(1);
        count(&mut self.links, Text::of(self.alloc, cause));
    }

    /// An accept found that the system lacks something.
    pub fn door_failed(&mut self)
        ensures { self.new ≡ record self.old { door_faults = min (self.old.door_faults + 1) (2 ^ 64 - 1) } }
    {
        self.door_faults = self.door_faults.saturating_add(1);
    }

    /// A request of this method for this route was answered with this status.
    pub fn request(&mut self, method: &str, route: &str, status: u16)
        ensures counted { IsCounted (spec.request_label method.now route.now status) self.old.requests self.new.requests }
        ensures rest { self.new ≡ record self.old { requests = self.new.requests } }
    {
        let label = request_label(self.alloc, method, route, status);
        count(&mut self.requests, label);
    }

    /// A token was pushed, and that came to this.
    pub fn pushed(&mut self, outcome: &str)
        ensures counted { IsCounted outcome.now self.old.pushes self.new.pushes }
        ensures rest { self.new ≡ record self.old { pushes = self.new.pushes } }
    {
        count(&mut self.pushes, Text::of(self.alloc, outcome));
    }

    /// A token was reported as faulty with this code.
    pub fn token_reported(&mut self, code: &str)
        ensures counted { IsCounted code.now self.old.reported self.new.reported }
        ensures rest { self.new ≡ record self.old { reported = self.new.reported } }
    {
        count(&mut self.reported, Text::of(self.alloc, code));
    }

    /// Puts all of it last. Out of memory is the only error.
    pub fn put(&self, text: &mut String) -> Result<(), Memory>
        ensures { OnOk result (string_bytes text.new ≡ string_bytes text.old ++ spec.told self.now) }
    {
        put_value(text, uptime_front(), self.time.saturating_sub(self.started))?;
        put_value(text, open_front(), self.links_open)?;
        put_value(text, door_front(), self.door_faults)?;
        put_family(text, requests_head(), requests_front(), &self.requests)?;
        put_family(text, links_head(), links_front(), &self.links)?;
        put_family(text, pushes_head(), pushes_front(), &self.pushes)?;
        put_family(text, reported_head(), reported_front(), &self.reported)
    }
}

// Counts a label, unless there is no memory for it.
fn count(tally: &mut Tally, label: Result<Text, Memory>)
    ensures counted { IfOk label (λ text. IsCounted text tally.old tally.new) }
    ensures none { OnErr label (tally.new ≡ tally.old) }
{
    if let Ok(label) = label {
        let _ = tally.add(label);
    }
}

// The label of a request.
#[tactic(auto, unfolding(crate::specs::Families::request_label))]
fn request_label(alloc: Global, method: &str, route: &str, status: u16) -> Result<Text, Memory>
    ensures { IfOk result (λ label. label ≡ spec.request_label method.now route.now status) }
{
    let mut label = String::from_str(alloc, method)?;
    label.push_str("\",route=\"")?;
    label.push_str(route)?;
    label.push_str("\",status=\"")?;
    put_number(&mut label, u64::from(status))?;
    Ok(Text::from_string(label))
}

// Puts a metric with labels last.
fn put_family(text: &mut String, head: &str, front: &str, counts: &Tally) -> Result<(), Memory>
    ensures { OnOk result (string_bytes text.new ≡ string_bytes text.old ++ spec.family head.now front.now counts.now) }
{
    text.push_str(head)?;
    counts.put(text, front)
}

// What opens each metric, and each line of a count. No other function reads these texts.

#[tactic(auto, unfolding(crate::specs::Families::uptime_front))]
fn uptime_front() -> &'static str
    ensures { result.now ≡ spec.uptime_front }
{
    "# HELP signals_uptime_seconds Seconds since the start.\n# TYPE signals_uptime_seconds gauge\nsignals_uptime_seconds "
}

#[tactic(auto, unfolding(crate::specs::Families::open_front))]
fn open_front() -> &'static str
    ensures { result.now ≡ spec.open_front }
{
    "# HELP signals_links_open Links that are open.\n# TYPE signals_links_open gauge\nsignals_links_open "
}

#[tactic(auto, unfolding(crate::specs::Families::door_front))]
fn door_front() -> &'static str
    ensures { result.now ≡ spec.door_front }
{
    "# HELP signals_door_faults_total Accepts that found no descriptor or memory free.\n# TYPE signals_door_faults_total counter\nsignals_door_faults_total "
}

#[tactic(auto, unfolding(crate::specs::Families::requests_head))]
fn requests_head() -> &'static str
    ensures { result.now ≡ spec.requests_head }
{
    "# HELP signals_requests_total Requests, by method, route and status.\n# TYPE signals_requests_total counter\n"
}

#[tactic(auto, unfolding(crate::specs::Families::requests_front))]
fn requests_front() -> &'static str
    ensures { result.now ≡ spec.requests_front }
{
    "signals_requests_total{method=\""
}

#[tactic(auto, unfolding(crate::specs::Families::links_head))]
fn links_head() -> &'static str
    ensures { result.now ≡ spec.links_head }
{
    "# HELP signals_links_ended_total Links that ended, by cause.\n# TYPE signals_links_ended_total counter\n"
}

#[tactic(auto, unfolding(crate::specs::Families::links_front))]
fn links_front() -> &'static str
    ensures { result.now ≡ spec.links_front }
{
    "signals_links_ended_total{cause=\""
}

#[tactic(auto, unfolding(crate::specs::Families::pushes_head))]
fn pushes_head() -> &'static str
    ensures { result.now ≡ spec.pushes_head }
{
    "# HELP signals_pushes_total Pushes, by outcome.\n# TYPE signals_pushes_total counter\n"
}

#[tactic(auto, unfolding(crate::specs::Families::pushes_front))]
fn pushes_front() -> &'static str
    ensures { result.now ≡ spec.pushes_front }
{
    "signals_pushes_total{outcome=\""
}

#[tactic(auto, unfolding(crate::specs::Families::reported_head))]
fn reported_head() -> &'static str
    ensures { result.now ≡ spec.reported_head }
{
    "# HELP signals_reported_total Tokens that were reported as faulty, by code.\n# TYPE signals_reported_total counter\n"
}

#[tactic(auto, unfolding(crate::specs::Families::reported_front))]
fn reported_front() -> &'static str
    ensures { result.now ≡ spec.reported_front }
{
    "signals_reported_total{code=\""
}
