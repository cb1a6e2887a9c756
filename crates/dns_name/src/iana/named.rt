//! Codes by their registered names.

ghost use Rattle.std.specs.Prelude.{◌≡◌, Some};
ghost use Rattle.dns_name.specs.declared.registry.Registry.{Registry};
ghost use Rattle.dns_name.specs.Registries.{code_named, code_text, if_below};

use crate::iana::{
    Classes, Code, ExtendedErrorCodes, HeaderCode, Opcodes, OptionCodes, Rcodes, Rtypes,
};
use crate::registry::{Registered, Registry, code_in, write_code};
use std::fmt;
use std::marker::PhantomData;

impl<K: Registered> Code<K> {
    /// The code that a text names: by its registered name up to ASCII case, or by its decimal number. That stands after TYPE for a
    /// record type and after CLASS for a class (RFC 3597, section 5).
    pub fn from_text(text: &str) -> Option<Code<K>>
        ensures { result ≡ code_named K.REGISTRY text.now }
    {
        match code_in(K::REGISTRY, text) {
            Some(number) => Some(Code::from_int(number)),
            None => None,
        }
    }
}

/// The registered name, or the decimal number if there is none, after TYPE for a record type and CLASS for a class
/// (RFC 3597, section 5).
impl<K: Registered> fmt::Display for Code<K> {
    ghost output = { λ c. Some (code_text K.REGISTRY c) };

    fn fmt<W: fmt::Write>(&self, f: &mut fmt::Formatter<W>) -> fmt::Result {
        write_code(K::REGISTRY, self.number, f)
    }
}

impl<K: Registered> HeaderCode<K> {
    /// The code that a text names: by its registered name up to ASCII case, or by its decimal number. None from 16.
    pub fn from_text(text: &str) -> Option<HeaderCode<K>>
        ensures { result ≡ if_below 16 (code_named K.REGISTRY text.now) }
    {
        match code_in(K::REGISTRY, text) {
            Some(number) if number < 16 => Some(HeaderCode {
                number: number as u8,
                of: PhantomData,
            }),
            _ => None,
        }
    }
}

/// The registered name, or the decimal number if there is none.
impl<K: Registered> fmt::Display for HeaderCode<K> {
    ghost output = { λ c. Some (code_text K.REGISTRY c) };

    fn fmt<W: fmt::Write>(&self, f: &mut fmt::Formatter<W>) -> fmt::Result {
        write_code(K::REGISTRY, self.number as u16, f)
    }
}

impl Registered for Classes {
    const REGISTRY: Registry = Registry::Classes;

    ghost REGISTRY = { Registry.Classes };
}

impl Registered for Rtypes {
    const REGISTRY: Registry = Registry::Rtypes;

    ghost REGISTRY = { Registry.Rtypes };
}

impl Registered for OptionCodes {
    const REGISTRY: Registry = Registry::OptionCodes;

    ghost REGISTRY = { Registry.OptionCodes };
}

impl Registered for ExtendedErrorCodes {
    const REGISTRY: Registry = Registry::ErrorCodes;

    ghost REGISTRY = { Registry.ErrorCodes };
}

impl Registered for Opcodes {
    const REGISTRY: Registry = Registry::Opcodes;

    ghost REGISTRY = { Registry.Opcodes };
}

impl Registered for Rcodes {
    const REGISTRY: Registry = Registry::Rcodes;

    ghost REGISTRY = { Registry.Rcodes };
}
