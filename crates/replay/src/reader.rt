// The fields of a list, read one after another. Numbers of several bytes have the high byte first.
ghost use Rattle.std.specs.Prelude.{◌≤◌};

use crate::bad_list::BadList;
use crate::head::{HEAD_LENGTH, Head};
use std::alloc::Global;
use std::num::nearest_u32_to_f32;

// What is left of a list.
#[derive(Debug, Drop)]
pub(crate) struct Reader<'a> {
    rest: &'a [u8],
}

impl<'a> Reader<'a> {
    pub(crate) fn new(list: &'a [u8]) -> Reader<'a> {
        Reader { rest: list }
    }

    pub(crate) fn is_empty(&self) -> bool {
        self.rest.is_empty()
    }

    pub(crate) fn bytes(&mut self, count: usize) -> Result<&'a [u8], BadList> {
        let (bytes, rest) = self.rest.split_at_checked(count).ok_or(BadList::Short)?;
        self.rest = rest;
        Ok(bytes)
    }

    fn field<const SIZE: usize>(&mut self) -> Result<[u8; SIZE], BadList> {
        let (field, rest) = self.rest.split_first_chunk::<SIZE>().ok_or(BadList::Short)?;
        self.rest = rest;
        Ok(*field)
    }

    pub(crate) fn byte(&mut self) -> Result<u8, BadList> {
        Ok(u8::from_be_bytes(self.field()?))
    }

    pub(crate) fn small(&mut self) -> Result<u32, BadList> {
        Ok(u32::from(self.byte()?))
    }

    pub(crate) fn word(&mut self) -> Result<u32, BadList> {
        Ok(u32::from(u16::from_be_bytes(self.field()?)))
    }

    pub(crate) fn coupling(&mut self) -> Result<i32, BadList> {
        Ok(i32::from_be_bytes(self.field()?))
    }

    // A byte that is no spin reads as 0, which the port refuses.
    pub(crate) fn spin(&mut self) -> Result<i8, BadList> {
        Ok(match self.byte()? {
            1 => 1,
            255 => -1,
            _ => 0,
        })
    }

    // Three bytes m and one byte e, the number m / 2^e. Each halving is exact: a fraction of the list has at most 24 bits and at most 63 halvings.
    pub(crate) fn fraction(&mut self) -> Result<f32, BadList> {
        let [high, middle, low, halvings] = self.field::<4>()?;
        let mut fraction = nearest_u32_to_f32(u32::from_be_bytes([0, high, middle, low]));
        for _ in 0..halvings {
            fraction *= 0.5;
        }
        Ok(fraction)
    }

    // So many fields of one kind.
    pub(crate) fn fields<T: Drop, F: Fn(&mut Reader<'a>) -> Result<T, BadList>>(
        &mut self,
        alloc: Global,
        count: usize,
        field: F,
    ) -> Result<Vec<T>, BadList>
        requires { F.IsAlwaysCallable field }
    {
        let mut fields = Vec::new(alloc);
        for _ in 0..count {
            fields.push(field(self)?)?;
        }
        Ok(fields)
    }

    // A head that the list cuts short is out of range where what there is of it is.
    pub(crate) fn head(&mut self) -> Result<Head, BadList> {
        let mut bytes = [0; HEAD_LENGTH];
        for (byte, &given) in bytes.iter_mut().zip(self.rest) {
            *byte = given;
        }
        let head = Head::try_from(bytes)?;
        self.bytes(HEAD_LENGTH)?;
        Ok(head)
    }
}
