// The engine: one step of a run, and the run to the span. Every run of the analysis, and the LO table, goes by this step.
ghost use Rattle.std.specs.Prelude.{◌≡◌, ◌<◌, ◌≤◌, ◌++◌, drop, length, map};
ghost use Rattle.model.specs.Lists.{at, from};
ghost use Rattle.model.specs.Runs.{mode_now, slot_at};
ghost use Rattle.columns.specs.Columns.{view_of};
ghost use Rattle.runs.specs.Engine.{any_overrun, slot_of, Accountable, given, accounted, Steppable, next, start_of, progress_at};

use columns::Columns;
use measures::outruns;
use model::{Level, State};
use picks::pick;

// How far a run has come: its state, who got the last slot, the switch so far, and the finishes so far. The slot is a table's entry, "0 for idle,
// else a job number", and the finishes are the answer's, 0 where there is none.
#[derive(Clone, Copy)]
pub struct Progress {
    pub state: State,
    pub slot: u16,
    pub switch: Option<u16>,
    pub finishes: [u16; 64],
}

impl Progress {
    // Before slot 0: jobs 1 to n are done where they have nothing to do, and no other number names a job. (Filled by index as in `checks::allowed`.)
    fn start(n: usize, times: &[u16; 64]) -> Progress
        ensures { result ≡ start_of n times.now }
    {
        let mut done = [true; 64];
        for (i, time) in times.iter().enumerate() {
            done[i] = n <= i || *time == 0;
        }
        Progress {
            state: State {
                mode: Level::Lo,
                had: [0u16; 64],
                done,
            },
            slot: 0,
            switch: None,
            finishes: [0u16; 64],
        }
    }

    // Accounts slot t, of the job picked, in the mode given.
    #[tactic(auto, unfolding(crate::specs::Engine::accounted, crate::specs::Engine::given, crate::specs::Engine::slot_of, crate::specs::Engine::switched, crate::specs::Engine::noted, model::specs::Runs::account))]
    fn account(&mut self, job: Option<u16>, mode: Level, times: &[u16; 64], t: u16)
        requires { Accountable self.old job t }
        ensures { self.new ≡ accounted times.now t (slot_of job) mode self.old }
    {
        self.state.mode = mode;
        self.slot = job.unwrap_or(0);
        self.switch = self.switch.or((mode == Level::Hi).then_some(t));
        if let Some(j) = job {
            self.give(j, times, t);
        }
    }

    // Gives job j the slot t.
    #[tactic(auto, unfolding(crate::specs::Engine::given, crate::specs::Engine::noted, model::specs::Runs::account, model::specs::Runs::bump, model::specs::Runs::time, model::specs::Lists::at))]
    fn give(&mut self, j: u16, times: &[u16; 64], t: u16)
        requires { (t < 65535) × (1 ≤ j) × (j ≤ 64) × (at self.old.state.had j 0 < 65535) }
        ensures { self.new ≡ given times.now t j self.old }
    {
        let i = usize::from(j) - 1;
        let had = self.state.had[i] + 1;
        let ended = had == times[i];
        self.state.had[i] = had;
        self.state.done[i] = ended;
        if ended {
            self.finishes[i] = t + 1;
        }
    }
}

// One run: the columns of a set of at most 64 jobs, and each job's running time.
#[derive(Clone, Copy)]
pub struct Run<'a> {
    pub k: &'a Columns,
    pub times: &'a [u16; 64],
    ghost few: { k.now.n ≤ 64 },
}

impl Run<'_> {
    // Whether a HI job has had exactly its LO budget and is not done.
    fn overrun(&self, state: &State) -> bool
        ensures { result ≡ any_overrun self.now.k.now.n self.now.k.now.critical self.now.k.now.lo state.now.had state.now.done }
    {
        let k = self.k;
        let State { had, done, .. } = state;
        (0..k.n).any(|i| outruns(k.critical[i], had[i], k.lo[i], done[i]))
    }

    // The mode of the slot at this state: rule 1 may switch it to HI.
    #[tactic(auto, using(crate::proofs::Steps::rule_1), unfolding(model::specs::Runs::mode_now, model::specs::Sets::is_hi))]
    fn mode_now(&self, state: &State) -> Level
        ensures { result ≡ mode_now (view_of self.now.k.now).policy state.now }
    {
        if state.mode == Level::Lo && !self.overrun(state) {
            Level::Lo
        } else {
            Level::Hi
        }
    }

    // One slot: rule 1, the pick in the present mode's order, and the account.
    #[tactic(auto, using(crate::proofs::Steps::stepped))]
    fn step(&self, g: &mut Progress, t: u16)
        requires { Steppable g.old t }
        ensures { g.new ≡ next (view_of self.now.k.now).policy self.now.times.now t g.old }
    {
        let mode = self.mode_now(&g.state);
        let job = pick(self.k.order(mode), &self.k.arrivals, &g.state.done, t);
        g.account(job, mode, self.times, t);
    }

    // The run to the span. Who gets each slot is written into the table as far as it goes, which may be nowhere.
    pub fn to_span(&self, span: u16, table: &mut [u16]) -> Progress
        ensures run { result ≡ progress_at (view_of self.now.k.now).policy self.now.k.now.n self.now.times.now span }
        ensures written { span ≤ length table.old → table.new ≡ map (slot_at (view_of self.now.k.now).policy self.now.times.now) (from 0 span) ++ drop span table.old }
    {
        let mut g = Progress::start(self.k.n, self.times);
        for t in 0..span {
            self.step(&mut g, t);
            // by index: of what is written through `get_mut` a proof knows no element afterwards
            if usize::from(t) < table.len() {
                table[usize::from(t)] = g.slot;
            }
        }
        g
    }
}
