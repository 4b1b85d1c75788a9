// All that a call answers and writes. The list has no form that grows and keeps no totals.
use crate::bad_list::BadList;
use crate::head::Head;
use crate::reader::Reader;
use std::alloc::{AllocError, Global};

// What an output holds before the call, and where it is left alone.
const UNTOUCHED: u32 = 65535;

// How many tasks were idle and how many moved. A held task is neither, and would differ: the list has none.
#[derive(Clone, Copy, Debug, PartialEq, Eq)]
pub(crate) struct Outcomes {
    pub(crate) idle: u32,
    pub(crate) moved: u32,
}

impl Outcomes {
    // A refusal is neither, and no case of the list has 255 of both.
    pub(crate) const REFUSED: Outcomes = Outcomes {
        idle: 255,
        moved: 255,
    };
}

#[derive(Debug, PartialEq, Eq, Drop)]
pub(crate) struct Outputs {
    pub(crate) labels: Vec<u32>,
    pub(crate) grey_labels: Vec<u32>,
    pub(crate) counts: Vec<u32>,
    pub(crate) sizes: Vec<u32>,
    pub(crate) found: Vec<u32>,
    pub(crate) grey_found: Vec<u32>,
}

impl Outputs {
    pub(crate) fn untouched(alloc: Global, head: Head) -> Result<Outputs, AllocError> {
        Ok(Outputs {
            labels: vec![in alloc; UNTOUCHED; head.labels()]?,
            grey_labels: vec![in alloc; UNTOUCHED; head.grey_labels()]?,
            counts: vec![in alloc; UNTOUCHED; head.counts()]?,
            sizes: vec![in alloc; UNTOUCHED; 4 * head.tasks]?,
            found: vec![in alloc; UNTOUCHED; head.tasks]?,
            grey_found: vec![in alloc; UNTOUCHED; head.grey_found()]?,
        })
    }

    fn read(alloc: Global, list: &mut Reader<'_>, head: Head) -> Result<Outputs, BadList> {
        Ok(Outputs {
            labels: list.fields(alloc, head.labels(), Reader::word)?,
            grey_labels: list.fields(alloc, head.grey_labels(), Reader::word)?,
            counts: list.fields(alloc, head.counts(), Reader::word)?,
            sizes: list.fields(alloc, 4 * head.tasks, Reader::word)?,
            found: list.fields(alloc, head.tasks, Reader::word)?,
            grey_found: list.fields(alloc, head.grey_found(), Reader::word)?,
        })
    }
}

#[derive(Debug, PartialEq, Eq, Drop)]
pub(crate) struct Played {
    pub(crate) outcomes: Outcomes,
    pub(crate) spins: Vec<i8>,
    pub(crate) outputs: Outputs,
}

impl Played {
    // The list's answer to a case.
    pub(crate) fn read(
        alloc: Global,
        list: &mut Reader<'_>,
        head: Head,
    ) -> Result<Played, BadList> {
        let outcomes = Outcomes {
            idle: u32::from(list.byte()?),
            moved: u32::from(list.byte()?),
        };
        Ok(Played {
            outcomes,
            spins: list.fields(alloc, head.s * head.n, Reader::spin)?,
            outputs: Outputs::read(alloc, list, head)?,
        })
    }
}
