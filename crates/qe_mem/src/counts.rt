//! Calls that are counted, of which some are to fail.
ghost use Rattle.std.specs.Prelude.{◌≡◌, ◌^◌, ◌-◌, ◌+◌, ◌≤◌, nat_lt, true};
ghost use Rattle.std.specs.List.{list_any};
ghost use Rattle.qe_base.specs.Causes.{HasCause};

use qe_text::Items;

/// A kind of call that is counted.
#[derive(Clone, Copy, Debug)]
pub enum CallKind {
    Attach,
    Load,
    Scan,
    Page,
    Last,
    Apply,
}

/// A call that is to fail: its number among the calls of its kind, from 1.
#[derive(Clone, Copy, Debug)]
pub struct FailAt {
    pub call: CallKind,
    pub number: u64,
}

/// The calls that are to fail, how many were made of each kind, and how often one failed.
#[derive(Drop)]
pub struct Counts {
    fail: Items<FailAt>,
    attaches: u64,
    loads: u64,
    scans: u64,
    pages: u64,
    lasts: u64,
    applies: u64,
    faults: u64,
}

impl CallKind {
    ghost use Rattle.qe_mem.specs.Counts.{rank};

    fn rank(self) -> u8
        ensures { result ≡ rank self }
    {
        match self {
            CallKind::Attach => 0,
            CallKind::Load => 1,
            CallKind::Scan => 2,
            CallKind::Page => 3,
            CallKind::Last => 4,
            CallKind::Apply => 5,
        }
    }
}

impl Counts {
    ghost use Rattle.qe_mem.specs.Counts.{no_calls, made, with_call, with_fault, is_listed, fails_next, faults_of, after_call};

    /// No call was made yet, and these are to fail.
    pub fn new(fail: Items<FailAt>) -> Counts
        ensures { result ≡ no_calls fail }
    {
        Counts {
            fail,
            attaches: 0,
            loads: 0,
            scans: 0,
            pages: 0,
            lasts: 0,
            applies: 0,
            faults: 0,
        }
    }

    /// How often a call has failed.
    pub fn faults(&self) -> u64
        ensures { result ≡ self.now.faults }
    {
        self.faults
    }

    /// How many calls of a kind were made.
    fn made(&self, call: CallKind) -> u64
        ensures { result ≡ made call self.now }
    {
        match call {
            CallKind::Attach => self.attaches,
            CallKind::Load => self.loads,
            CallKind::Scan => self.scans,
            CallKind::Page => self.pages,
            CallKind::Last => self.lasts,
            CallKind::Apply => self.applies,
        }
    }

    /// One call more of a kind.
    fn count(&mut self, call: CallKind)
        ensures counted { self.new ≡ with_call call self.old }
        ensures grows { made call self.old ≤ made call self.new }
    {
        match call {
            CallKind::Attach => self.attaches = self.attaches.saturating_add(1),
            CallKind::Load => self.loads = self.loads.saturating_add(1),
            CallKind::Scan => self.scans = self.scans.saturating_add(1),
            CallKind::Page => self.pages = self.pages.saturating_add(1),
            CallKind::Last => self.lasts = self.lasts.saturating_add(1),
            CallKind::Apply => self.applies = self.applies.saturating_add(1),
        }
    }

    /// Whether a call of this number is to fail.
    fn lists(&self, call: CallKind, number: u64) -> bool
        ensures { result ≡ list_any (is_listed call number) self.now.fail }
    {
        for fail in self.fail.as_slice() {
            if fail.call.rank() == call.rank() && fail.number == number {
                return true;
            }
        }
        false
    }

    /// Whether the next call of a kind is to fail.
    fn fails_next(&self, call: CallKind) -> bool
        ensures { result ≡ fails_next call self.now }
    {
        let made = self.made(call);
        made < u64::MAX && self.lists(call, made + 1)
    }

    /// Counts a call, and says whether it is to fail, which is then a fault.
    pub fn begin(&mut self, call: CallKind) -> bool
        ensures fails { result ≡ fails_next call self.old }
        ensures counted { self.new ≡ after_call call self.old }
        ensures cause { HasCause (faults_of self.old) (faults_of self.new) (result ≡ true) }
    {
        let fails = self.fails_next(call);
        self.count(call);
        if fails {
            self.faults = self.faults.saturating_add(1);
        }
        fails
    }
}
