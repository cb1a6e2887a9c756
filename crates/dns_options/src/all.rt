//! Every kind of option as one.

ghost use Rattle.std.specs.Prelude.{◌≡◌, ⊤, Some};
ghost use Rattle.std.specs.Result.{IsOkAnd};
ghost use Rattle.dns_name.specs.OptData.{ParsesData, ParsesOption, mapped_data, list_data};
ghost use Rattle.dns_name.specs.Place.{rest};
ghost use Rattle.dns_lists.specs.Unknowns.{unknown};
ghost use Rattle.dns_options.specs.All.{all_octets, all_takes, code_of, fields_data, octets_data};

use dns_algs::{DauRef, DhuRef, N3uRef};
use dns_cookie::Cookie;
use dns_kinds::{ChainRef, ClientSubnet, Expire, ExtendedErrorRef, TcpKeepalive};
use dns_lists::{KeyTagRef, NsidRef, PaddingRef, UnknownOptDataRef};
use dns_name::{
    ComposeOptData, OptData, OptionCode, OutOfMemory, ParseError, ParseOptData, Parser,
};
use std::alloc::{AllocError, Global};

/// The data of any option.
#[derive(Debug, Drop)]
pub enum AllOptData<'a> {
    Dau(DauRef<'a>),
    Dhu(DhuRef<'a>),
    N3u(N3uRef<'a>),
    Chain(ChainRef<'a>),
    Cookie(Cookie),
    Expire(Expire),
    ExtendedError(ExtendedErrorRef<'a>),
    TcpKeepalive(TcpKeepalive),
    KeyTag(KeyTagRef<'a>),
    Nsid(NsidRef<'a>),
    Padding(PaddingRef<'a>),
    ClientSubnet(ClientSubnet),
    /// Of a code that has no kind.
    Other(UnknownOptDataRef<'a>),
}

/// What is said of the value in any option.
macro_rules! each {
    ($option:expr, $value:ident => $said:expr) => {
        match $option {
            AllOptData::Dau($value) => $said,
            AllOptData::Dhu($value) => $said,
            AllOptData::N3u($value) => $said,
            AllOptData::Chain($value) => $said,
            AllOptData::Cookie($value) => $said,
            AllOptData::Expire($value) => $said,
            AllOptData::ExtendedError($value) => $said,
            AllOptData::TcpKeepalive($value) => $said,
            AllOptData::KeyTag($value) => $said,
            AllOptData::Nsid($value) => $said,
            AllOptData::Padding($value) => $said,
            AllOptData::ClientSubnet($value) => $said,
            AllOptData::Other($value) => $said,
        }
    };
}

impl<'a> Clone for AllOptData<'a> {
    ghost is_clone = { λ option copy. copy ≡ option };

    ghost is_infallible = { λ _. ⊤ };

    fn clone(&self) -> Result<AllOptData<'a>, AllocError> {
        each!(self, value => copied(value))
    }
}

/// A copy of a value, as an option.
fn copied<'a, T: Clone + Into<AllOptData<'a>>>(value: &T) -> Result<AllOptData<'a>, AllocError>
    requires same { (copy : T) → T.is_clone value.now copy → copy ≡ value.now }
    requires infallible { T.is_infallible value.now }
    ensures { IsOkAnd result (T.converts value.now) }
{
    let copy = value.clone()?;
    Ok(copy.into())
}

impl<'a> OptData for AllOptData<'a> {
    ghost code_of = { code_of };

    fn code(&self) -> OptionCode {
        each!(self, value => OptData::code(value))
    }
}

impl<'a> ParseOptData<'a> for AllOptData<'a> {
    ghost takes = { all_takes };

    fn parse_option(
        code: OptionCode,
        parser: &mut Parser<'a>,
    ) -> Result<Option<AllOptData<'a>>, ParseError> {
        match code.to_int() {
            5 => Ok(Some(AllOptData::Dau(DauRef::parse(parser)?))),
            6 => Ok(Some(AllOptData::Dhu(DhuRef::parse(parser)?))),
            7 => Ok(Some(AllOptData::N3u(N3uRef::parse(parser)?))),
            10 => Ok(Some(AllOptData::Cookie(Cookie::parse(parser)?))),
            _ => parse_fields(code, parser),
        }
    }
}

/// An option of numbers, an address, a name or a text, or one of those below.
fn parse_fields<'a>(
    code: OptionCode,
    parser: &mut Parser<'a>,
) -> Result<Option<AllOptData<'a>>, ParseError>
    ensures { ParsesOption (Some (fields_data code (rest parser.old))) parser.old parser.new result }
{
    match code.to_int() {
        8 => Ok(Some(AllOptData::ClientSubnet(ClientSubnet::parse(parser)?))),
        9 => Ok(Some(AllOptData::Expire(Expire::parse(parser)?))),
        11 => Ok(Some(AllOptData::TcpKeepalive(TcpKeepalive::parse(parser)?))),
        13 => Ok(Some(AllOptData::Chain(ChainRef::parse(parser)?))),
        15 => Ok(Some(AllOptData::ExtendedError(ExtendedErrorRef::parse(parser)?))),
        _ => parse_octets(code, parser),
    }
}

/// An option over plain octets, or of a code that has no kind.
fn parse_octets<'a>(
    code: OptionCode,
    parser: &mut Parser<'a>,
) -> Result<Option<AllOptData<'a>>, ParseError>
    ensures { ParsesOption (Some (octets_data code (rest parser.old))) parser.old parser.new result }
{
    match code.to_int() {
        3 => Ok(Some(AllOptData::Nsid(NsidRef::parse(parser)?))),
        12 => Ok(Some(AllOptData::Padding(PaddingRef::parse(parser)?))),
        14 => Ok(Some(AllOptData::KeyTag(KeyTagRef::parse(parser)?))),
        _ => Ok(Some(AllOptData::Other(other(code, parser)?))),
    }
}

/// All that is left, under a code.
fn other<'a>(code: OptionCode, parser: &mut Parser<'a>) -> Result<UnknownOptDataRef<'a>, ParseError>
    ensures { ParsesData (mapped_data (unknown code) (list_data (rest parser.old))) parser.old parser.new result }
{
    let value = UnknownOptDataRef::new(code, parser.peek_all())?;
    parser.advance_to_end();
    Ok(value)
}

impl<'a> ComposeOptData for AllOptData<'a> {
    ghost octets = { all_octets };

    fn compose_len(&self) -> u16 {
        each!(self, value => value.compose_len())
    }

    fn compose_option(&self, alloc: Global, target: &mut Vec<u8>) -> Result<(), OutOfMemory> {
        each!(self, value => value.compose_option(alloc, target))
    }
}

impl<'a> From<DauRef<'a>> for AllOptData<'a> {
    ghost use Rattle.dns_options.specs.declared.all.AllOptData.TheVariants.{Dau};

    ghost from_gives = { λ k a. a ≡ Dau k };

    fn from(value: DauRef<'a>) -> Self {
        AllOptData::Dau(value)
    }
}

impl<'a> From<DhuRef<'a>> for AllOptData<'a> {
    ghost use Rattle.dns_options.specs.declared.all.AllOptData.TheVariants.{Dhu};

    ghost from_gives = { λ k a. a ≡ Dhu k };

    fn from(value: DhuRef<'a>) -> Self {
        AllOptData::Dhu(value)
    }
}

impl<'a> From<N3uRef<'a>> for AllOptData<'a> {
    ghost use Rattle.dns_options.specs.declared.all.AllOptData.TheVariants.{N3u};

    ghost from_gives = { λ k a. a ≡ N3u k };

    fn from(value: N3uRef<'a>) -> Self {
        AllOptData::N3u(value)
    }
}

impl<'a> From<ChainRef<'a>> for AllOptData<'a> {
    ghost use Rattle.dns_options.specs.declared.all.AllOptData.TheVariants.{Chain};

    ghost from_gives = { λ k a. a ≡ Chain k };

    fn from(value: ChainRef<'a>) -> Self {
        AllOptData::Chain(value)
    }
}

impl<'a> From<Cookie> for AllOptData<'a> {
    ghost use Rattle.dns_options.specs.declared.all.AllOptData.TheVariants.{Cookie};

    ghost from_gives = { λ k a. a ≡ Cookie k };

    fn from(value: Cookie) -> Self {
        AllOptData::Cookie(value)
    }
}

impl<'a> From<Expire> for AllOptData<'a> {
    ghost use Rattle.dns_options.specs.declared.all.AllOptData.TheVariants.{Expire};

    ghost from_gives = { λ k a. a ≡ Expire k };

    fn from(value: Expire) -> Self {
        AllOptData::Expire(value)
    }
}

impl<'a> From<ExtendedErrorRef<'a>> for AllOptData<'a> {
    ghost use Rattle.dns_options.specs.declared.all.AllOptData.TheVariants.{ExtendedError};

    ghost from_gives = { λ k a. a ≡ ExtendedError k };

    fn from(value: ExtendedErrorRef<'a>) -> Self {
        AllOptData::ExtendedError(value)
    }
}

impl<'a> From<TcpKeepalive> for AllOptData<'a> {
    ghost use Rattle.dns_options.specs.declared.all.AllOptData.TheVariants.{TcpKeepalive};

    ghost from_gives = { λ k a. a ≡ TcpKeepalive k };

    fn from(value: TcpKeepalive) -> Self {
        AllOptData::TcpKeepalive(value)
    }
}

impl<'a> From<KeyTagRef<'a>> for AllOptData<'a> {
    ghost use Rattle.dns_options.specs.declared.all.AllOptData.TheVariants.{KeyTag};

    ghost from_gives = { λ k a. a ≡ KeyTag k };

    fn from(value: KeyTagRef<'a>) -> Self {
        AllOptData::KeyTag(value)
    }
}

impl<'a> From<NsidRef<'a>> for AllOptData<'a> {
    ghost use Rattle.dns_options.specs.declared.all.AllOptData.TheVariants.{Nsid};

    ghost from_gives = { λ k a. a ≡ Nsid k };

    fn from(value: NsidRef<'a>) -> Self {
        AllOptData::Nsid(value)
    }
}

impl<'a> From<PaddingRef<'a>> for AllOptData<'a> {
    ghost use Rattle.dns_options.specs.declared.all.AllOptData.TheVariants.{Padding};

    ghost from_gives = { λ k a. a ≡ Padding k };

    fn from(value: PaddingRef<'a>) -> Self {
        AllOptData::Padding(value)
    }
}

impl<'a> From<ClientSubnet> for AllOptData<'a> {
    ghost use Rattle.dns_options.specs.declared.all.AllOptData.TheVariants.{ClientSubnet};

    ghost from_gives = { λ k a. a ≡ ClientSubnet k };

    fn from(value: ClientSubnet) -> Self {
        AllOptData::ClientSubnet(value)
    }
}

impl<'a> From<UnknownOptDataRef<'a>> for AllOptData<'a> {
    ghost use Rattle.dns_options.specs.declared.all.AllOptData.TheVariants.{Other};

    ghost from_gives = { λ k a. a ≡ Other k };

    fn from(value: UnknownOptDataRef<'a>) -> Self {
        AllOptData::Other(value)
    }
}
