//! The bytes of a name.
ghost use Rattle.std.specs.Prelude.{◌≡◌, ◌≤◌, length, take, IfOk, OnOk, OnErr};
ghost use Rattle.bstr.specs.Owned.{bstring_bytes};
ghost use Rattle.vipr_cert.specs.Names.{name_bytes};

use crate::short::{MOST_IN_PLACE, Short};
use bstr::BString;
use std::alloc::{AllocError, Global};

/// Bytes. A few take no memory of their own.
#[derive(Drop)]
pub(crate) enum NameBytes {
    Short(Short),
    Long(BString),
}

impl NameBytes {
    /// These bytes.
    #[inline(always)]
    pub(crate) fn of(alloc: Global, bytes: &[u8]) -> Result<NameBytes, AllocError>
        ensures { IfOk result (λ b. name_bytes b ≡ bytes.now) }
    {
        if bytes.len() <= MOST_IN_PLACE {
            return Ok(NameBytes::Short(Short::of(bytes)));
        }
        Ok(NameBytes::Long(BString::from_slice(alloc, bytes)?))
    }

    /// The first bytes of these in place of those before. If there is no memory, those before stay.
    #[inline(always)]
    pub(crate) fn set_front(
        &mut self,
        alloc: Global,
        bytes: &[u8],
        len: usize,
    ) -> Result<(), AllocError>
        requires { len ≤ length bytes.now }
        ensures bytes { OnOk result (name_bytes self.new ≡ take len bytes.now) }
        ensures kept { OnErr result (self.new ≡ self.old) }
    {
        match self {
            NameBytes::Short(short) if len <= MOST_IN_PLACE && MOST_IN_PLACE <= bytes.len() => {
                *short = Short::of_front(bytes, len);
                Ok(())
            }
            _ => self.set_anew(alloc, &bytes[..len]),
        }
    }

    // Makes it these bytes, which don't go where those before were.
    #[inline(never)]
    fn set_anew(&mut self, alloc: Global, bytes: &[u8]) -> Result<(), AllocError>
        ensures bytes { OnOk result (name_bytes self.new ≡ bytes.now) }
        ensures kept { OnErr result (self.new ≡ self.old) }
    {
        *self = NameBytes::of(alloc, bytes)?;
        Ok(())
    }

    /// These bytes, in place if there are few.
    pub(crate) fn of_owned(bytes: BString) -> NameBytes
        ensures { name_bytes result ≡ bstring_bytes bytes }
    {
        let slice = bytes.as_bytes();
        if slice.len() <= MOST_IN_PLACE {
            return NameBytes::Short(Short::of(slice));
        }
        NameBytes::Long(bytes)
    }

    /// The bytes.
    #[inline(always)]
    pub(crate) fn as_slice(&self) -> &[u8]
        ensures { result.now ≡ name_bytes self.now }
    {
        match self {
            NameBytes::Short(short) => short.as_slice(),
            NameBytes::Long(bytes) => bytes.as_bytes(),
        }
    }

    /// A copy of the bytes.
    pub(crate) fn try_copy(&self) -> Result<NameBytes, AllocError>
        ensures { IfOk result (λ copy. name_bytes copy ≡ name_bytes self.now) }
    {
        match self {
            NameBytes::Short(short) => Ok(NameBytes::Short(*short)),
            NameBytes::Long(bytes) => Ok(NameBytes::Long(bytes.clone()?)),
        }
    }
}
