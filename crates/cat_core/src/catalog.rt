//! The catalog.
ghost use Rattle.std.specs.Prelude.{◌≡◌, ◌≢◌, ◌≤◌, ◌<◌, ◌+◌, ◌++◌, ℕ, List, false, length, take, None, Some, Err, IfOk, IfSome, OnOk, OnErr};
ghost use Rattle.std.specs.Option.{option_copied, option_map};
ghost use Rattle.std.specs.FinMap as map;
ghost use Rattle.std.specs.Ordering.{is_gt};
ghost use Rattle.std.specs.declared.ops.Bound.TheVariants.{Excluded, Included, Unbounded};
ghost use Rattle.group_core.specs.declared.entry.CatEntry.TheVariants.{Volume};
ghost use Rattle.group_core.specs.Entries.{group_in, volume_in};
ghost use Rattle.group_core.specs.Groups.{RollsInRange};
ghost use Rattle.jname_core.specs.Generations.{above_generations, below_generations};
ghost use Rattle.cat_core.specs.Catalogs.{Gives, catalog_fault, contents_of, entered_name, enters_generation_of, entry_among, entry_with, entry_within, entry_without, found, generation_entered, generation_entered_by, group_made, group_of, has_generation_entered, is_entered, is_generation_of, is_volume, member_of, name_cmp, name_removed, relative, with_generation, with_group, with_name, without_name, without_number};

use crate::fault::CatFault;
use group_core::entry::CatEntry;
use group_core::group::{Group, GroupFault, Rolled};
use jname_core::ds_name::DsName;
use jname_core::key::Sign;
use jname_core::serial::Serial;
use std::alloc::{AllocError, Global};
use std::collections::BTreeMap;
use std::collections::btree_map::Range;
use std::marker::Model;

/// Names and what is entered for them.
#[derive(Drop)]
pub struct Catalog {
    entries: BTreeMap<DsName, CatEntry>,
}

impl Model for Catalog {
    ghost use Rattle.cat_core.specs.Catalogs.{Contents, coded_contents, contents_of};

    ghost Value = { Contents };

    ghost coded = { coded_contents };

    ghost view = { λ c. contents_of c.entries.entries };
}

type Entries = BTreeMap<DsName, CatEntry>;

/// The group of a base.
fn group_at<'a>(entries: &'a Entries, base: &DsName) -> Option<&'a Group>
    ensures { option_copied result ≡ group_of (contents_of entries.now.entries) base.now }
{
    match entries.get(base) {
        Some(CatEntry::Group(group)) => Some(group),
        Some(CatEntry::Volume(_)) => None,
        None => None,
    }
}

/// The volume of a name's own entry.
fn volume_at(entries: &Entries, name: &DsName) -> Option<Serial>
    ensures { result ≡ volume_in (map.get (contents_of entries.now.entries) name.now) }
{
    match entries.get(name) {
        Some(CatEntry::Volume(serial)) => Some(*serial),
        Some(CatEntry::Group(_)) => None,
        None => None,
    }
}

/// Whether the name is a generation of the base.
fn is_generation_of(base: &DsName, name: &DsName) -> bool
    ensures { result ≡ is_generation_of base.now name.now }
{
    name.generation_of().is_some() && name.base_of() == *base
}

fn is_volume(entry: &CatEntry) -> bool
    ensures { result ≡ is_volume entry.now }
{
    match entry {
        CatEntry::Volume(_) => true,
        CatEntry::Group(_) => false,
    }
}

/// Whether an entry is that of a generation of the base as a plain name.
fn enters_generation_of(base: &DsName, name: &DsName, entry: &CatEntry) -> bool
    ensures { result ≡ enters_generation_of base.now (name.now, entry.now) }
{
    is_volume(entry) && is_generation_of(base, name)
}

/// Whether a generation of the base is entered as a plain name, by the names between two that stand around them all.
fn has_generation_between(entries: &Entries, base: &DsName, below: DsName, above: DsName) -> bool
    requires below { below ≡ below_generations base.now }
    requires above { above ≡ above_generations base.now }
    ensures { result ≡ has_generation_entered (contents_of entries.now.entries) base.now }
{
    entries
        .range(below..above)
        .any(|(name, entry)| enters_generation_of(base, name, entry))
}

/// Whether a generation of the base is entered as a plain name, by all names.
fn has_generation_among_all(entries: &Entries, base: &DsName) -> bool
    ensures { result ≡ has_generation_entered (contents_of entries.now.entries) base.now }
{
    entries
        .iter()
        .any(|(name, entry)| enters_generation_of(base, name, entry))
}

/// Whether a generation of the base is entered as a plain name.
fn has_generation_entered(entries: &Entries, base: &DsName) -> bool
    ensures { result ≡ has_generation_entered (contents_of entries.now.entries) base.now }
{
    match base.generation_bounds() {
        Some((below, above)) => has_generation_between(entries, base, below, above),
        None => has_generation_among_all(entries, base),
    }
}

/// The entries from a name on, up to another.
fn between(entries: &Entries, below: DsName, above: DsName) -> Range<'_, DsName, CatEntry>
    requires { is_gt (name_cmp below above) ≡ false }
    ensures { (name : List ℕ) → entry_among result name ≡ entry_within (Included below) (Excluded above) (contents_of entries.now.entries) name }
{
    entries.range(below..above)
}

/// The entries from a name on.
fn from(entries: &Entries, below: DsName) -> Range<'_, DsName, CatEntry>
    ensures { (name : List ℕ) → entry_among result name ≡ entry_within (Included below) Unbounded (contents_of entries.now.entries) name }
{
    entries.range(below..)
}

/// The entry of a name.
fn entry_at<'a>(entries: &'a Entries, name: &DsName) -> Option<&'a CatEntry>
    ensures { option_copied result ≡ map.get (contents_of entries.now.entries) name.now }
{
    entries.get(name)
}

/// Puts an entry at a name. The error is want of memory, and changes nothing.
fn set_at(entries: &mut Entries, name: DsName, entry: CatEntry) -> Result<(), AllocError>
    ensures ok { OnOk result (contents_of entries.new.entries ≡ map.insert (contents_of entries.old.entries) name entry) }
    ensures err { OnErr result (contents_of entries.new.entries ≡ contents_of entries.old.entries) }
    ensures memory { OnErr result (map.get (contents_of entries.old.entries) name ≡ None) }
{
    match entries.insert(name, entry) {
        Ok(_) => Ok(()),
        Err(_) => Err(AllocError),
    }
}

/// Puts a group without a generation at a base. The error is want of memory, and changes nothing.
fn put_group(
    entries: &mut Entries,
    alloc: Global,
    base: DsName,
    limit: u8,
    scratch: bool,
) -> Result<(), AllocError>
    ensures ok { OnOk result (contents_of entries.new.entries ≡ with_group (contents_of entries.old.entries) base limit scratch) }
    ensures err { OnErr result (contents_of entries.new.entries ≡ contents_of entries.old.entries) }
{
    let group = Group::new(alloc, limit, scratch)?;
    set_at(entries, base, CatEntry::Group(group))
}

/// Takes the entry of a name away.
fn clear_at(entries: &mut Entries, name: &DsName)
    ensures { contents_of entries.new.entries ≡ map.remove (contents_of entries.old.entries) name.now }
{
    entries.remove(name);
}

/// Enters a generation's number in a group.
fn enter_in(entry: &mut CatEntry, number: u16, serial: Serial) -> Result<Rolled, CatFault>
    requires { (0 < number) × (number ≤ 9999) }
    ensures answer { result ≡ generation_entered_by (group_in (Some entry.old)) number serial }
    ensures ok { OnOk result (entry.new ≡ entry_with entry.old number serial) }
    ensures range { IfOk result RollsInRange }
    ensures err { OnErr result (entry.new ≡ entry.old) }
    ensures memory { result ≢ Err CatFault.Memory }
{
    match entry {
        CatEntry::Group(group) => match group.enter(number, serial) {
            Ok(rolled) => Ok(rolled),
            Err(fault) => Err(catalog_fault(fault)),
        },
        CatEntry::Volume(_) => Err(CatFault::NoGroup),
    }
}

/// Takes a generation's number out of a group. Where there is none nothing changes.
fn clear_in(entry: &mut CatEntry, number: u16)
    ensures { entry.new ≡ entry_without entry.old number }
{
    match entry {
        CatEntry::Group(group) => match group.remove(number) {
            Ok(()) => {}
            Err(_) => {}
        },
        CatEntry::Volume(_) => {}
    }
}

/// Enters a generation's number in the group of a base.
fn enter_at(
    entries: &mut Entries,
    base: &DsName,
    number: u16,
    serial: Serial,
) -> Result<Rolled, CatFault>
    requires { (0 < number) × (number ≤ 9999) }
    ensures answer { result ≡ generation_entered (contents_of entries.old.entries) base.now number serial }
    ensures ok { OnOk result (contents_of entries.new.entries ≡ with_generation (contents_of entries.old.entries) base.now number serial) }
    ensures range { IfOk result RollsInRange }
    ensures err { OnErr result (contents_of entries.new.entries ≡ contents_of entries.old.entries) }
    ensures memory { result ≢ Err CatFault.Memory }
{
    match entries.get_mut(base) {
        Some(entry) => enter_in(entry, number, serial),
        None => Err(CatFault::NoGroup),
    }
}

/// Takes a generation's number out of the group of a base. Where there is none nothing changes.
fn clear_number_at(entries: &mut Entries, base: &DsName, number: u16)
    ensures { contents_of entries.new.entries ≡ without_number (contents_of entries.old.entries) base.now number }
{
    match entries.get_mut(base) {
        Some(entry) => clear_in(entry, number),
        None => {}
    }
}

fn catalog_fault(fault: GroupFault) -> CatFault
    ensures value { result ≡ catalog_fault fault }
    ensures memory { result ≢ CatFault.Memory }
{
    match fault {
        GroupFault::Elsewhere => CatFault::There,
        GroupFault::NoGeneration => CatFault::NoGeneration,
        GroupFault::TooHigh => CatFault::TooHigh,
    }
}

impl Catalog {
    pub fn new(alloc: Global) -> Catalog
        ensures { result ≡ map.empty }
    {
        Catalog {
            entries: BTreeMap::new(alloc),
        }
    }

    /// The volume entered for a name: where its base is a group, for its number there. A group's base has none.
    pub fn find(&self, name: &DsName) -> Option<Serial>
        ensures { result ≡ found self.now name.now }
    {
        match self.member(name) {
            Some((number, group)) => group.find(number),
            None => volume_at(&self.entries, name),
        }
    }

    /// The group of a base.
    pub fn group(&self, base: &DsName) -> Option<&Group>
        ensures { option_copied result ≡ group_of self.now base.now }
    {
        group_at(&self.entries, base)
    }

    /// What is entered for a name itself.
    pub fn entry(&self, name: &DsName) -> Option<&CatEntry>
        ensures { option_copied result ≡ map.get self.now name.now }
    {
        entry_at(&self.entries, name)
    }

    /// The entries from a name on, up to another, in the order of names.
    pub fn entries_between(&self, below: DsName, above: DsName) -> Range<'_, DsName, CatEntry>
        requires { is_gt (name_cmp below above) ≡ false }
        ensures { (name : List ℕ) → entry_among result name ≡ entry_within (Included below) (Excluded above) self.now name }
    {
        between(&self.entries, below, above)
    }

    /// The entries from a name on, in the order of names.
    pub fn entries_from(&self, below: DsName) -> Range<'_, DsName, CatEntry>
        ensures { (name : List ℕ) → entry_among result name ≡ entry_within (Included below) Unbounded self.now name }
    {
        from(&self.entries, below)
    }

    /// The number of a name in the group of its base, where that is one.
    pub fn member(&self, name: &DsName) -> Option<(u16, &Group)>
        ensures value { option_map (λ m. (m.0, m.1.now)) result ≡ member_of self.now name.now }
        ensures range { IfSome result (λ m. (0 < m.0) × (m.0 ≤ 9999)) }
    {
        match name.generation_of() {
            Some(number) => {
                if number == 0 {
                    return None;
                }
                match self.group(&name.base_of()) {
                    Some(group) => Some((number, group)),
                    None => None,
                }
            }
            None => None,
        }
    }

    /// Enters a name for a volume; of a group's generation the number, as `enter_generation` does. A name that is entered is refused.
    pub fn enter(&mut self, name: DsName, serial: Serial) -> Result<Rolled, CatFault>
        ensures answer { Gives result (entered_name self.old name serial) }
        ensures ok { OnOk result (self.new ≡ with_name self.old name serial) }
        ensures range { IfOk result RollsInRange }
        ensures err { OnErr result (self.new ≡ self.old) }
        ensures memory { result ≡ Err CatFault.Memory → (member_of self.old name ≡ None) × (map.get self.old name ≡ None) }
    {
        if self.is_entered(&name) {
            return Err(CatFault::There);
        }
        match self.member(&name) {
            Some((number, _)) => enter_at(&mut self.entries, &name.base_of(), number, serial),
            None => match self.put(name, serial) {
                Ok(()) => Ok(Rolled::Entered),
                Err(_) => Err(CatFault::Memory),
            },
        }
    }

    /// Enters a name for a volume in place of what is there. Memory is wanted only where nothing is, and its want changes nothing.
    pub fn put(&mut self, name: DsName, serial: Serial) -> Result<(), AllocError>
        ensures ok { OnOk result (self.new ≡ map.insert self.old name (Volume serial)) }
        ensures err { OnErr result (self.new ≡ self.old) }
        ensures memory { OnErr result (map.get self.old name ≡ None) }
    {
        set_at(&mut self.entries, name, CatEntry::Volume(serial))
    }

    /// Removes a name, or of a group's generation the number. A group's base is no entry to remove.
    pub fn remove(&mut self, name: &DsName) -> Result<(), CatFault>
        ensures answer { Gives result (name_removed self.old name.now) }
        ensures ok { OnOk result (self.new ≡ without_name self.old name.now) }
        ensures err { OnErr result (self.new ≡ self.old) }
        ensures memory { result ≢ Err CatFault.Memory }
    {
        match self.member(name) {
            Some((number, group)) => {
                if group.find(number).is_none() {
                    return Err(CatFault::NoGeneration);
                }
            }
            None => {
                if volume_at(&self.entries, name).is_none() {
                    return Err(CatFault::NotThere);
                }
            }
        }
        self.clear(name);
        Ok(())
    }

    /// Takes a name out, whatever stands there; of a group's generation the number. Where there is none nothing changes.
    pub fn clear(&mut self, name: &DsName)
        ensures { self.new ≡ without_name self.old name.now }
    {
        match self.member(name) {
            Some((number, _)) => clear_number_at(&mut self.entries, &name.base_of(), number),
            None => clear_at(&mut self.entries, name),
        }
    }

    /// Makes a group of this base, where neither it nor a generation of it is entered.
    pub fn make_group(
        &mut self,
        alloc: Global,
        base: DsName,
        limit: u8,
        scratch: bool,
    ) -> Result<(), CatFault>
        ensures answer { Gives result (group_made self.old base) }
        ensures ok { OnOk result (self.new ≡ with_group self.old base limit scratch) }
        ensures err { OnErr result (self.new ≡ self.old) }
    {
        if self.is_entered(&base) || self.has_generation_of(&base) {
            return Err(CatFault::There);
        }
        match put_group(&mut self.entries, alloc, base, limit, scratch) {
            Ok(()) => Ok(()),
            Err(_) => Err(CatFault::Memory),
        }
    }

    /// The number that a relative number means in the group of a base.
    pub fn resolve_relative(&self, base: &DsName, sign: Sign, amount: u8) -> Result<u16, CatFault>
        ensures { result ≡ relative self.now base.now sign amount }
    {
        match self.group(base) {
            Some(group) => match group.resolve(sign, amount) {
                Ok(number) => Ok(number),
                Err(fault) => Err(catalog_fault(fault)),
            },
            None => Err(CatFault::NoGroup),
        }
    }

    /// Enters a generation's number in the group of a base: in a full group in place of the lowest. It takes no memory. The caller scratches
    /// what rolls off.
    pub fn enter_generation(
        &mut self,
        base: &DsName,
        number: u16,
        serial: Serial,
    ) -> Result<Rolled, CatFault>
        requires { (0 < number) × (number ≤ 9999) }
        ensures answer { result ≡ generation_entered self.old base.now number serial }
        ensures ok { OnOk result (self.new ≡ with_generation self.old base.now number serial) }
        ensures range { IfOk result RollsInRange }
        ensures err { OnErr result (self.new ≡ self.old) }
        ensures memory { result ≢ Err CatFault.Memory }
    {
        enter_at(&mut self.entries, base, number, serial)
    }

    /// Whether a name is entered, as a group's base too.
    pub fn is_entered(&self, name: &DsName) -> bool
        ensures { result ≡ is_entered self.now name.now }
    {
        self.group(name).is_some() || self.find(name).is_some()
    }

    /// Whether a name of the form of a generation of this base is entered.
    pub fn has_generation_of(&self, base: &DsName) -> bool
        ensures { result ≡ has_generation_entered self.now base.now }
    {
        has_generation_entered(&self.entries, base)
    }
}
