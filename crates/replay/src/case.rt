// A case of the list, and its call. The published Rust knows no pins: none of the sites is pinned.
use crate::bad_list::BadList;
use crate::head::{Head, Kind};
use crate::outputs::{Outcomes, Outputs, Played};
use crate::reader::Reader;
use paper::{Counts, Group, Keeps, Outcome, Plan, Refusal, Task};
use std::alloc::Global;

#[derive(Drop)]
pub(crate) struct Case<'a> {
    head: Head,
    // The order of a sweep, the group of a move.
    systems: Vec<u32>,
    masks: &'a [u8],
    spins: Vec<i8>,
    forward: Vec<u32>,
    backward: Vec<u32>,
    couplings: Vec<i32>,
    temperatures: Vec<f32>,
    cuts: Vec<f32>,
    references: Vec<u32>,
    seeds: Vec<u32>,
    choices: &'a [u8],
    greys: &'a [u8],
}

fn of_step(answer: Result<Outcome, Refusal>) -> Outcomes {
    match answer {
        Ok(Outcome::Idle) => Outcomes { idle: 1, moved: 0 },
        Ok(Outcome::Held) => Outcomes { idle: 0, moved: 0 },
        Ok(Outcome::Moved) => Outcomes { idle: 0, moved: 1 },
        Err(_) => Outcomes::REFUSED,
    }
}

fn of_sweep(answer: Result<Counts, Refusal>) -> Outcomes {
    match answer {
        Ok(counts) => Outcomes {
            idle: counts.idle,
            moved: counts.moved,
        },
        Err(_) => Outcomes::REFUSED,
    }
}

fn first(numbers: &[u32]) -> usize {
    numbers.first().map_or(0, |&number| number as usize)
}

impl<'a> Case<'a> {
    pub(crate) fn read(
        alloc: Global,
        list: &mut Reader<'a>,
        head: Head,
    ) -> Result<Case<'a>, BadList> {
        let systems = list.fields(alloc, head.t * head.r, Reader::small)?;
        let masks = list.bytes(head.t)?;
        let spins = list.fields(alloc, head.s * head.n, Reader::spin)?;
        let forward = list.fields(alloc, head.bonds(), Reader::word)?;
        let backward = list.fields(alloc, head.bonds(), Reader::word)?;
        let couplings = list.fields(alloc, head.couplings(), Reader::coupling)?;
        let temperatures = list.fields(alloc, head.temperatures(), Reader::fraction)?;
        let cuts = list.fields(alloc, head.cuts(), Reader::fraction)?;
        let references = list.fields(alloc, head.references(), Reader::word)?;
        let seeds = list.fields(alloc, head.seeds(), Reader::word)?;
        let choices = list.bytes(head.choices())?;
        let greys = list.bytes(head.greys())?;
        Ok(Case {
            head,
            systems,
            masks,
            spins,
            forward,
            backward,
            couplings,
            temperatures,
            cuts,
            references,
            seeds,
            choices,
            greys,
        })
    }

    // What the port answers and writes.
    pub(crate) fn play(self, alloc: Global) -> Result<Played, BadList> {
        let pins = vec![in alloc; 0u8; self.head.n]?;
        let mut outputs = Outputs::untouched(alloc, self.head)?;
        let mut spins = self.spins.clone()?;
        let outcomes = match self.head.kind {
            Kind::Move => of_step(self.step(&pins, &mut spins, &mut outputs)),
            Kind::Sweep => of_sweep(self.sweep(&pins, &mut spins, &mut outputs)),
        };
        Ok(Played {
            outcomes,
            spins,
            outputs,
        })
    }

    fn group(&self) -> Group {
        let mut systems = [0; 8];
        for (place, &system) in systems.iter_mut().zip(&self.systems) {
            *place = system as usize;
        }
        Group {
            len: self.systems.len(),
            systems,
        }
    }

    fn task(&self) -> Task {
        Task {
            mode: self.head.mode,
            form: self.head.form,
            keeps: Keeps::Nothing,
            n: self.head.n,
            d: self.head.d,
            s: self.head.s,
            group: self.group(),
            temperature: self.temperatures.first().copied().unwrap_or(1.0),
            reference: first(&self.references),
            seed: first(&self.seeds),
        }
    }

    fn plan(&self) -> Plan {
        Plan {
            mode: self.head.mode,
            form: self.head.form,
            keeps: Keeps::Nothing,
            n: self.head.n,
            d: self.head.d,
            s: self.head.s,
            systems: self.head.s,
            t: self.head.t,
            r: self.head.r,
            members: self.head.members,
        }
    }

    fn step(
        &self,
        pins: &[u8],
        spins: &mut [i8],
        outputs: &mut Outputs,
    ) -> Result<Outcome, Refusal> {
        steps::overlap_step(
            self.task(),
            spins,
            &mut [],
            &self.forward,
            &self.backward,
            pins,
            &self.couplings,
            &self.cuts,
            self.choices,
            self.greys,
            &mut outputs.labels,
            &mut outputs.grey_labels,
            &mut outputs.counts,
            &mut outputs.sizes,
            &mut [],
            &mut outputs.found,
            &mut outputs.grey_found,
        )
    }

    fn sweep(
        &self,
        pins: &[u8],
        spins: &mut [i8],
        outputs: &mut Outputs,
    ) -> Result<Counts, Refusal> {
        sweep::overlap_update(
            self.plan(),
            spins,
            &mut [],
            &self.forward,
            &self.backward,
            pins,
            &self.couplings,
            &self.systems,
            self.masks,
            &self.temperatures,
            &self.cuts,
            &self.references,
            &self.seeds,
            self.choices,
            self.greys,
            &mut outputs.labels,
            &mut outputs.grey_labels,
            &mut outputs.counts,
            &mut outputs.sizes,
            &mut [],
            &mut outputs.found,
            &mut outputs.grey_found,
        )
    }
}
