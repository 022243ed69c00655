// One step of the search. For the decoder alone: hence the `requires`. Assumes nothing.
ghost use Rattle.std.specs.Prelude.{◌≡◌, ◌+◌, ◌<◌, ◌≤◌, true, ◌&&◌};
ghost use Rattle.cost.specs.Rows.{path_at};
ghost use Rattle.cost.specs.Workspace.{soft_in};
ghost use Rattle.decoder.specs.Blocks.{plan_in, soft_of};
ghost use Rattle.decoder.specs.States.{loaded_of, RowsApart, ShownWhole, Sound};
ghost use Rattle.decoder.specs.Phases.{is_loaded};
ghost use Rattle.decoder.specs.Steps.{path_of, MayPut, MayStep, Ready, Costs, Framed, Searched};
ghost use Rattle.decoder.specs.declared.phase.Phase.TheVariants as phase;
ghost use Rattle.model.specs.Blocks.{kinds_of, path_cost};
ghost use Rattle.model.specs.Reading.{first_bits, candidate_in};
ghost use Rattle.plan.specs.Plans.{block_length, log_length, payload_bits};
ghost use Rattle.search.specs.Lists.{Each};
ghost use Rattle.search.specs.Paths.{allowed, information_from, is_information};
ghost use Rattle.search.specs.Search as search;
ghost use Rattle.search.specs.Stores.{ruled};

use super::State;
use crate::path::{gather, is_information};
use crate::phase::Phase;
use crate::rows::free_row;
use code::parity_sum;
use cost::Workspace;
use cost::value::contradiction;
use outer::Judge;
use plan::Kind;
use store::{Candidate, Store};

impl<S: Store, C: Judge> State<S, C> {
    // Whether the check calls the information bits of the first len bits in a row hopeless.
    fn hopeless_beginning(&self, row: u8, len: usize) -> bool
        requires size { len ≤ 1024 }
        ensures { result ≡ C.hopeless self.now.check (payload_bits (plan_in self.now.block)) (information_from (kinds_of (plan_in self.now.block)) 0 (first_bits (path_at self.now.rows row) len)) }
    {
        if !self.check.watches() {
            return false;
        }
        let plan = self.block.plan();
        let path = self.rows.path(row as usize);
        let mut room = [false; 1024];
        let beginning = gather(plan, &path, len, &mut room);
        self.check.is_hopeless(plan.payload_bits(), beginning)
    }

    // Whether the child in a row, whose last bit is at position i, is left out.
    fn left_out(&self, row: u8, i: usize) -> bool
        requires size { i < 1024 }
        ensures { result ≡ (is_information (kinds_of (plan_in self.now.block) i) && C.hopeless self.now.check (payload_bits (plan_in self.now.block)) (information_from (kinds_of (plan_in self.now.block)) 0 (first_bits (path_at self.now.rows row) (i + 1)))) }
    {
        is_information(self.block.plan(), i) && self.hopeless_beginning(row, i + 1)
    }

    // Puts the child of c that goes on with a bit and costs more than c; one that is hopeless is left out.
    fn put_child(&mut self, c: Candidate, bit: bool, more: u32)
        requires place { c.length < block_length (plan_in self.old.block) }
        requires ready { Ready S.Store C.Judge self.old }
        requires costs { Costs self.old c bit more }
        ensures model { loaded_of S.Store C.Judge self.new ≡ search.put_child ruled (path_of self.old c) (loaded_of S.Store C.Judge self.old) bit }
        ensures later { Each (λ k. k.serial < self.new.counts.serial) (S.kept self.new.store) }
        ensures parent { path_of self.new c ≡ path_of self.old c }
        ensures apart { ((RowsApart (S.kept self.old.store) → RowsApart (S.kept self.new.store))) × (self.new.counts.serial ≤ self.old.counts.serial + 1) }
        ensures frame { Searched self.old self.new }
    {
        let row = free_row(&self.store, c.row);
        let at = c.length as usize;
        self.rows.branch(c.row as usize, row as usize, at, bit);
        if self.left_out(row, at) {
            return;
        }
        let serial = self.counts.serial;
        self.store.put(Candidate {
            metric: c.metric.saturating_add(more),
            length: c.length + 1,
            serial,
            row,
        });
        self.counts.serial = serial.saturating_add(1);
    }

    // Puts the children of c, 0 before 1.
    fn put_children(&mut self, c: Candidate, work: &mut Workspace)
        requires place { c.length < block_length (plan_in self.old.block) }
        requires work { soft_in work.old ≡ soft_of self.old.block }
        requires may { MayPut S.Store C.Judge self.old c }
        ensures model { loaded_of S.Store C.Judge self.new ≡ search.put_children ruled (path_of self.old c) (loaded_of S.Store C.Judge self.old) (allowed (kinds_of (plan_in self.old.block)) (path_of self.old c)) }
        ensures apart { ((RowsApart (S.kept self.old.store) → RowsApart (S.kept self.new.store))) × (self.new.counts.serial ≤ self.old.counts.serial + 2) }
        ensures frame { Searched self.old self.new }
        ensures work { soft_in work.new ≡ soft_in work.old }
    {
        let path = self.rows.path(c.row as usize);
        let at = c.length as usize;
        let value = work.decision(&path, at);
        match self.block.plan().kind(at) {
            Kind::Frozen => self.put_child(c, false, contradiction(value, false)),
            Kind::Parity => {
                let bit = parity_sum(self.block.plan(), &path, at);
                self.put_child(c, bit, contradiction(value, bit));
            }
            Kind::Information => {
                self.put_child(c, false, contradiction(value, false));
                self.put_child(c, true, contradiction(value, true));
            }
        }
    }

    // Whether the check accepts the information bits of the word in a row.
    fn accepted_word(&self, row: u8) -> bool
        ensures { result ≡ C.accepted self.now.check (payload_bits (plan_in self.now.block)) (information_from (kinds_of (plan_in self.now.block)) 0 (first_bits (path_at self.now.rows row) (block_length (plan_in self.now.block)))) }
    {
        let plan = self.block.plan();
        let path = self.rows.path(row as usize);
        let mut room = [false; 1024];
        let word = gather(plan, &path, plan.length(), &mut room);
        self.check.accepts(plan.payload_bits(), word)
    }

    // Judges a whole path: it is shown if the check accepts it.
    fn judge(&mut self, c: Candidate)
        requires whole { c.length ≡ block_length (plan_in self.old.block) }
        requires failures { self.old.counts.failures < 4294967295 }
        requires searching { self.old.phase ≡ phase.Searching }
        ensures model { loaded_of S.Store C.Judge self.new ≡ search.judged (candidate_in (path_at self.old.rows) c) (loaded_of S.Store C.Judge self.old) }
        ensures store { (self.new.store ≡ self.old.store) × (self.new.counts.serial ≡ self.old.counts.serial) }
        ensures frame { Framed self.old self.new }
        ensures shown { ShownWhole C.Judge self.new self.new.phase }
        ensures loaded { is_loaded self.new.phase ≡ true }
    {
        if self.accepted_word(c.row) {
            self.phase = Phase::Shown(c);
            return;
        }
        self.counts.failures = self.counts.failures.saturating_add(1);
    }

    // Takes the first candidate, and judges it or puts its children.
    pub(crate) fn step(&mut self, work: &mut Workspace)
        requires may { MayStep S.Store C.Judge self.old }
        requires work { soft_in work.old ≡ soft_of self.old.block }
        ensures model { loaded_of S.Store C.Judge self.new ≡ search.step ruled (loaded_of S.Store C.Judge self.old) }
        ensures sound { Sound S.Store C.Judge self.new }
        ensures loaded { is_loaded self.new.phase ≡ true }
        ensures check { (self.new.check ≡ self.old.check) × (self.new.block ≡ self.old.block) }
        ensures work { soft_in work.new ≡ soft_in work.old }
    {
        let Some(c) = self.store.take() else {
            return;
        };
        self.counts.steps = self.counts.steps.saturating_add(1);
        if (c.length as usize) < self.block.plan().length() {
            self.put_children(c, work);
            return;
        }
        self.judge(c);
    }
}
