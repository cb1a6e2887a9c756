//! The keys of a configuration, and what wants one.

ghost use Rattle.std.specs.Prelude.{◌≡◌, IfOk, OnOk, Some, string_bytes};
ghost use Rattle.std.specs.Arc.{arc_value};
ghost use Rattle.std.specs.List.{AllZip};
ghost use Rattle.dns_key_access.specs.Rules.{AreAccesses};
ghost use Rattle.zoned.specs.Keys.{AddsKeyOf, AddsZone, AreJudged, Grows, IsKeyOf, IsOfPeer, IsSecretText, NotifyIsJudged, TransferIsJudged, notify_judged_by, rules_of};

use anyhow::{Context, anyhow, bail};
use dns_config::{AllowedNetwork, Config, KeyEntry, KeyName, Peer, ZoneEntry};
use dns_key_access::{
    Access, KeyAccess, RuleError, ZoneAccess, peer_access, wants_key, zone_access,
};
use dns_listener::KeyRules;
use dns_name::{Name, OutOfMemory};
use dns_peer_keys::PeerKeys;
use std::alloc::Global;
use std::fs::File;
use std::io::Read;
use std::os::unix::fs::PermissionsExt;
use std::sync::Arc;

/// What others than the owner may do with a file.
const OTHERS: u32 = 0o077;

/// The text of a key's file without blanks round it. Nobody but its owner may read or write the file.
fn file_text(rt: &HostRuntime, path: &str) -> anyhow::Result<String> {
    let mut file = File::open(rt, path).context(format_args!("{path}"))?;
    let metadata = file.metadata().context(format_args!("{path}"))?;
    if metadata.permissions().mode() & OTHERS != 0 {
        bail!("{path}: others than its owner may read or write it");
    }
    let mut text = String::new(rt.alloc());
    file.read_to_string(&mut text)
        .context(format_args!("{path}"))?;
    Ok(String::from_str(rt.alloc(), text.as_str().trim())?)
}

/// The secret of a key as it is written: in the configuration, or in a file of its own.
fn secret_text(rt: &HostRuntime, entry: &KeyEntry) -> anyhow::Result<String>
    ensures { IfOk result (λ text. IsSecretText entry.now.secret (string_bytes text)) }
{
    match &entry.secret {
        Some(_) if entry.file.is_some() => bail!("it has both a secret and a file"),
        Some(secret) => Ok(String::from_str(rt.alloc(), secret.text.as_str())?),
        None => match &entry.file {
            Some(path) => file_text(rt, path.as_str()),
            None => bail!("it has neither a secret nor a file"),
        },
    }
}

/// Puts the key of an entry after the others.
#[tactic(auto, using(crate::proofs::KeysRead::one_read))]
fn add_key(rt: &HostRuntime, keys: &mut PeerKeys, entry: &KeyEntry) -> anyhow::Result<()>
    ensures { OnOk result (AddsKeyOf entry.now keys.old keys.new) }
{
    let text = secret_text(rt, entry)?;
    let name = entry.name.name.try_clone(rt.alloc())?;
    let algorithm = entry.algorithm.algorithm;
    keys.add(rt.alloc(), name, algorithm, text.as_bytes())?;
    Ok(())
}

/// The keys of a configuration in their order, each read and judged.
#[tactic(auto, using(crate::proofs::KeysRead::more_read, crate::proofs::KeysRead::all_read))]
fn load_keys(rt: &HostRuntime, config: &Config) -> anyhow::Result<PeerKeys>
    ensures { IfOk result (AllZip IsKeyOf config.now.key.items) }
{
    let mut keys = PeerKeys::new(rt.alloc());
    'keys: for entry in config.key.as_slice() {
        if let Err(fault) = add_key(rt, &mut keys, entry) {
            return Err(fault.context(format_args!("key {}", entry.name.name)));
        }
    }
    Ok(keys)
}

/// Says that a key isn't known.
fn unknown(name: &Option<KeyName>) -> anyhow::Error {
    match name {
        Some(named) => anyhow!("the key {} isn't known", named.name),
        None => anyhow!("a key isn't known"),
    }
}

/// What some rules permit.
fn access_of(
    alloc: Global,
    keys: &PeerKeys,
    rules: &[AllowedNetwork],
) -> anyhow::Result<Vec<Access>>
    ensures { IfOk result (λ allowed. AreAccesses keys.now rules.now allowed.items) }
{
    match zone_access(alloc, keys, rules) {
        Ok(made) => Ok(made),
        Err(RuleError::UnknownKey(place)) => match rules.get(place) {
            Some(rule) => Err(unknown(&rule.key)),
            None => Err(unknown(&None)),
        },
        Err(RuleError::OutOfMemory) => bail!("out of memory"),
    }
}

/// The networks to which a zone is transferred: its own, and else those for all zones.
fn rules_of<'a>(for_all: &'a [AllowedNetwork], entry: &'a ZoneEntry) -> &'a [AllowedNetwork]
    ensures { result.now ≡ rules_of for_all.now entry.now }
{
    match &entry.allow_transfer {
        Some(own) => own.as_slice(),
        None => for_all,
    }
}

/// Puts a zone after the others, with what it permits.
fn push_zone(
    alloc: Global,
    apex: &Name,
    allowed: Vec<Access>,
    zones: &mut Vec<ZoneAccess>,
) -> Result<(), OutOfMemory>
    ensures { OnOk result (AddsZone apex.now allowed.items zones.old.items zones.new.items) }
{
    let apex = apex.try_clone(alloc)?;
    zones.push(ZoneAccess { apex, allowed })?;
    Ok(())
}

/// Adds who may transfer a zone, if one of its networks wants a key.
fn add_transfers(
    alloc: Global,
    keys: &PeerKeys,
    for_all: &[AllowedNetwork],
    entry: &ZoneEntry,
    zones: &mut Vec<ZoneAccess>,
) -> anyhow::Result<()>
    ensures judged { OnOk result (TransferIsJudged keys.now for_all.now entry.now zones.new.items) }
    ensures kept { OnOk result (Grows zones.old.items zones.new.items) }
{
    let rules = rules_of(for_all, entry);
    if !wants_key(rules) {
        return Ok(());
    }
    let allowed = access_of(alloc, keys, rules)?;
    push_zone(alloc, &entry.name.name, allowed, zones)?;
    Ok(())
}

/// What another server is permitted, alone.
fn access_of_peer(alloc: Global, keys: &PeerKeys, peer: &Peer) -> anyhow::Result<Vec<Access>>
    ensures { IfOk result (λ allowed. IsOfPeer keys.now peer.now allowed.items) }
{
    let mut allowed = Vec::new(alloc);
    match peer_access(keys, peer) {
        Some(access) => allowed.push(access)?,
        None => return Err(unknown(&peer.key)),
    }
    Ok(allowed)
}

/// Adds whose NOTIFY of a zone is taken, if a key is shared with this primary.
fn add_notify(
    alloc: Global,
    keys: &PeerKeys,
    apex: &Name,
    peer: &Peer,
    zones: &mut Vec<ZoneAccess>,
) -> anyhow::Result<()>
    ensures judged { OnOk result (notify_judged_by keys.now apex.now zones.new.items (Some peer.now)) }
    ensures kept { OnOk result (Grows zones.old.items zones.new.items) }
{
    if peer.key.is_none() {
        return Ok(());
    }
    let allowed = access_of_peer(alloc, keys, peer)?;
    push_zone(alloc, apex, allowed, zones)?;
    Ok(())
}

/// Adds whose NOTIFY of a zone is taken, if it has a primary with which a key is shared.
fn add_notifies(
    alloc: Global,
    keys: &PeerKeys,
    entry: &ZoneEntry,
    zones: &mut Vec<ZoneAccess>,
) -> anyhow::Result<()>
    ensures judged { OnOk result (NotifyIsJudged keys.now entry.now zones.new.items) }
    ensures kept { OnOk result (Grows zones.old.items zones.new.items) }
{
    match &entry.primary {
        Some(peer) => add_notify(alloc, keys, &entry.name.name, peer, zones),
        None => Ok(()),
    }
}

/// Refuses a key that isn't known, of an address to which the NOTIFYs of a zone are sent.
fn refuse_unknown(keys: &PeerKeys, entry: &ZoneEntry) -> anyhow::Result<()> {
    for peer in entry.notify.iter() {
        if peer_access(keys, peer).is_none() {
            return Err(unknown(&peer.key));
        }
    }
    Ok(())
}

/// Adds what of a zone is judged by keys.
fn add_zone(
    alloc: Global,
    keys: &PeerKeys,
    for_all: &[AllowedNetwork],
    entry: &ZoneEntry,
    access: &mut KeyAccess,
) -> anyhow::Result<()>
    ensures transfers { OnOk result (TransferIsJudged keys.now for_all.now entry.now access.new.transfers.items) }
    ensures notifies { OnOk result (NotifyIsJudged keys.now entry.now access.new.notifies.items) }
    ensures kept { OnOk result (Grows access.old.transfers.items access.new.transfers.items) }
    ensures kept_notifies { OnOk result (Grows access.old.notifies.items access.new.notifies.items) }
{
    refuse_unknown(keys, entry)?;
    add_transfers(alloc, keys, for_all, entry, &mut access.transfers)?;
    add_notifies(alloc, keys, entry, &mut access.notifies)
}

/// What of a configuration is judged by keys. Each key that is named has to be known.
fn load_access(alloc: Global, config: &Config, keys: &PeerKeys) -> anyhow::Result<KeyAccess>
    ensures { IfOk result (λ access. AreJudged keys.now config.now.allow_transfer.items config.now.zone.items
        access.transfers.items access.notifies.items) }
{
    let for_all = config.allow_transfer.as_slice();
    let mut access = KeyAccess {
        transfers: Vec::new(alloc),
        notifies: Vec::new(alloc),
    };
    'zones: for entry in config.zone.as_slice() {
        if let Err(fault) = add_zone(alloc, keys, for_all, entry, &mut access) {
            return Err(fault.context(format_args!("zone {}", entry.name.name)));
        }
    }
    Ok(access)
}

/// The keys of a configuration that were read and judged, and what wants one.
#[derive(Drop)]
pub(crate) struct Keys {
    pub(crate) shared: Arc<PeerKeys>,
    access: Arc<KeyAccess>,
}

impl Keys {
    /// Reads and judges the keys of a configuration.
    pub(crate) fn of(rt: &HostRuntime, config: &Config) -> anyhow::Result<Keys>
        ensures read { IfOk result (λ k. AllZip IsKeyOf config.now.key.items (arc_value k.shared)) }
        ensures judged { IfOk result (λ k. AreJudged (arc_value k.shared) config.now.allow_transfer.items config.now.zone.items
            (arc_value k.access).transfers.items (arc_value k.access).notifies.items) }
    {
        let keys = load_keys(rt, config)?;
        let access = load_access(rt.alloc(), config, &keys)?;
        let shared = Arc::new(rt.alloc(), keys)?;
        let access = Arc::new(rt.alloc(), access)?;
        Ok(Keys { shared, access })
    }

    /// These keys, shared once more.
    pub(crate) fn again(&self) -> Result<Keys, OutOfMemory>
        ensures shared { IfOk result (λ k. arc_value k.shared ≡ arc_value self.now.shared) }
        ensures access { IfOk result (λ k. arc_value k.access ≡ arc_value self.now.access) }
    {
        let shared = Arc::try_clone(&self.shared)?;
        let access = Arc::try_clone(&self.access)?;
        Ok(Keys { shared, access })
    }

    /// What a listener needs of them.
    pub(crate) fn rules(&self, alloc: Global) -> Result<KeyRules, OutOfMemory>
        ensures keys { IfOk result (λ r. r.keys ≡ arc_value self.now.shared) }
        ensures access { IfOk result (λ r. arc_value r.access ≡ arc_value self.now.access) }
    {
        let keys = self.shared.store(alloc)?;
        let access = Arc::try_clone(&self.access)?;
        Ok(KeyRules { keys, access })
    }
}
