// Commands on one volume.
ghost use Rattle.std.specs.Prelude.{◌≡◌, ◌≢◌, ◌⊎◌, List, ℕ, IfErr, IfOk, OnOk, option_map};
ghost use Rattle.depot_actions.specs.Deliveries.{reply_of};
ghost use Rattle.devices.specs.Device.{HasBegun, HasBroken, HasTaken};
ghost use Rattle.refusals.specs.declared.refusal.Refusal.TheVariants.{Memory, Write};
ghost use Rattle.depot_actions.specs.Causes.{MayRefuse};
ghost use Rattle.depot_actions.specs.DepotState.{Deliver, Done, Export, Migrate, Migrated, Program, ProgramOf, Remove, SetCode, SetScript, Text};
ghost use Rattle.volumes.specs.Applying.{AppliesOnVolumes, FromAll, HasCauseIn, KeepsWhole, OpensFew, StepsAs};
ghost use Rattle.volumes.specs.Holding.{IsFailure, Keeps};
ghost use Rattle.volumes.specs.Private.{HasOpenedFor, HasOpenedNewest};
ghost use Rattle.volumes.specs.Volumes.{whole};

use crate::beginning::begin_if_large;
use crate::holding::Volumes;
use crate::searching::place_of;
use depot_actions::Depot;
use devices::Sink;
use encodings::Encoding;
use part_store::EntryRow;
use refusals::Refusal;
use sqlite::Alter;
use std::alloc::Global;

/// How large a volume is, in bytes, when the next one begins.
pub const VOLUME_SIZE: u64 = 8_388_608;

/// Opens the newest volume, and returns its place and its depot.
///
/// # Errors
///
/// - `Database` if there is no volume.
/// - The refusal if it can't be opened.
pub(crate) fn open_newest<S: Alter, V: Volumes<S, Depot<S>>>(
    volumes: &mut V,
) -> Result<(usize, Depot<S>), Refusal>
    ensures opened { IfOk result
        (λ r. HasOpenedNewest V.holding S.Store r.0 volumes.old volumes.new r.1) }
    ensures keeps { IfErr result (λ _. Keeps V.holding volumes.old volumes.new) }
    ensures which { IfErr result IsFailure }
{
    let count = volumes.count();
    if count == 0 {
        return Err(Refusal::Database);
    }
    let depot = volumes.open(count - 1)?;
    Ok((count - 1, depot))
}

/// Compiles a script and stores its program as the user's filter, in the newest volume.
///
/// # Errors
///
/// - `Memory` or `Database` if the volume can't be opened.
/// - What [`Depot::set_script`] is refused for.
pub fn set_script<S: Alter, V: Volumes<S, Depot<S>>>(
    volumes: &mut V,
    alloc: Global,
    user: &str,
    script: &[u8],
) -> Result<(), Refusal>
    ensures { AppliesOnVolumes V.holding volumes.old volumes.new result
        (SetScript user.now script.now) (λ _. Done) }
{
    let (place, mut depot) = open_newest(volumes)?;
    let result = depot.set_script(alloc, user, script);
    volumes.close(place, depot);
    result
}

/// Stores a program as the user's filter, in the newest volume.
///
/// # Errors
///
/// - `Memory` or `Database` if the volume can't be opened.
/// - What [`Depot::set_code`] is refused for.
pub fn set_code<S: Alter, V: Volumes<S, Depot<S>>>(
    volumes: &mut V,
    alloc: Global,
    user: &str,
    program: &[u8],
) -> Result<(), Refusal>
    ensures { AppliesOnVolumes V.holding volumes.old volumes.new result
        (SetCode user.now program.now) (λ _. Done) }
{
    let (place, mut depot) = open_newest(volumes)?;
    let result = depot.set_code(alloc, user, program);
    volumes.close(place, depot);
    result
}

/// Returns the bytes of the user's filter program, which the newest volume has, or `None` if the user has none.
///
/// # Errors
///
/// - `Memory` or `Database` if the volume can't be opened.
/// - What [`Depot::program_of`] is refused for.
pub fn program_of<S: Alter, V: Volumes<S, Depot<S>>>(
    volumes: &mut V,
    user: &str,
) -> Result<Option<Vec<u8>>, Refusal>
    ensures { AppliesOnVolumes V.holding volumes.old volumes.new result (ProgramOf user.now)
        (λ found. Program (option_map (λ v. v.items) found)) }
{
    let (place, mut depot) = open_newest(volumes)?;
    let result = depot.program_of(user);
    volumes.close(place, depot);
    result
}

/// Gives each filter program of another version the latest version, in the newest volume, and returns how many there
/// were. Earlier volumes keep theirs, which are used no more.
///
/// # Errors
///
/// - `Memory` or `Database` if the volume can't be opened.
/// - What [`Depot::migrate`] is refused for.
pub fn migrate<S: Alter, V: Volumes<S, Depot<S>>>(
    volumes: &mut V,
    alloc: Global,
) -> Result<usize, Refusal>
    ensures { AppliesOnVolumes V.holding volumes.old volumes.new result Migrate Migrated }
{
    let (place, mut depot) = open_newest(volumes)?;
    let result = depot.migrate(alloc);
    volumes.close(place, depot);
    result
}

/// Runs the user's filter on a message and files its entries in the newest volume. If that has `most` bytes or more,
/// the next volume is begun first; [`VOLUME_SIZE`] is what the program passes.
///
/// # Errors
///
/// - `Memory` or `Database` if a volume can't be opened, or the next one can't be begun.
/// - What [`Depot::deliver`] is refused for. The next volume can have begun.
pub fn deliver<S: Alter, V: Volumes<S, Depot<S>>>(
    volumes: &mut V,
    alloc: Global,
    user: &str,
    message: &[u8],
    most: u64,
) -> Result<Vec<EntryRow>, Refusal>
    ensures { AppliesOnVolumes V.holding volumes.old volumes.new result
        (Deliver user.now message.now) reply_of }
{
    begin_if_large(volumes, most)?;
    deliver_newest(volumes, alloc, user, message)
}

// Runs the user's filter on a message and files its entries in the newest volume.
fn deliver_newest<S: Alter, V: Volumes<S, Depot<S>>>(
    volumes: &mut V,
    alloc: Global,
    user: &str,
    message: &[u8],
) -> Result<Vec<EntryRow>, Refusal>
    ensures { AppliesOnVolumes V.holding volumes.old volumes.new result
        (Deliver user.now message.now) reply_of }
{
    let (place, mut depot) = open_newest(volumes)?;
    let result = depot.deliver(alloc, user, message);
    volumes.close(place, depot);
    result
}

// Opens the volume that the user's entry of this number can be in, and returns its place and its depot: the first whose
// last number for the user is at least the number, or the newest.
fn open_with<S: Alter, V: Volumes<S, Depot<S>>>(
    volumes: &mut V,
    user: &str,
    number: u32,
) -> Result<(usize, Depot<S>), Refusal>
    ensures opened { IfOk result (λ r. HasOpenedFor V.holding volumes.old volumes.new S.Store
        user.now number r.0 r.1) }
    ensures keeps { IfErr result (λ _. Keeps V.holding volumes.old volumes.new) }
    ensures which { IfErr result IsFailure }
    ensures few { OpensFew V.holding volumes.old volumes.new }
{
    let count = volumes.count();
    if count == 0 {
        return Err(Refusal::Database);
    }
    let place = place_of(volumes, user, u64::from(number), count - 1)?;
    let depot = volumes.open(place)?;
    Ok((place, depot))
}

/// Writes the bytes of the user's entry with this number in an encoding, and nothing else, from the volume that has it.
///
/// Of n volumes it opens at most as many as the logarithm of n to base 2, rounded up, and 1.
///
/// # Errors
///
/// - `Memory` or `Database` if a volume can't be opened or read; nothing was written.
/// - What [`Depot::export`] is refused for. If that is `Memory` or `Write`, the beginning of the text can have been
///   written.
pub fn export<S: Alter, V: Volumes<S, Depot<S>>, W: Sink>(
    volumes: &mut V,
    alloc: Global,
    user: &str,
    number: u32,
    encoding: Encoding,
    writer: &mut W,
) -> Result<(), Refusal>
    ensures done { OnOk result ((text : List ℕ) × HasTaken text (W.output writer.old)
        (W.output writer.new) × StepsAs V.holding volumes.old volumes.new
        (Export user.now number encoding) (Text text)) }
    ensures stopped { IfErr result (λ e. e ≡ Write → (text : List ℕ)
        × HasBroken text (W.output writer.old) (W.output writer.new)
        × StepsAs V.holding volumes.old volumes.new (Export user.now number encoding) (Text text)) }
    ensures begun { IfErr result (λ e. e ≡ Memory → (W.output writer.new ≡ W.output writer.old)
        ⊎ ((text : List ℕ) × HasBegun text (W.output writer.old) (W.output writer.new)
        × StepsAs V.holding volumes.old volumes.new (Export user.now number encoding) (Text text))) }
    ensures unwritten { IfErr result
        (λ e. e ≢ Write → e ≢ Memory → W.output writer.new ≡ W.output writer.old) }
    ensures keeps { KeepsWhole V.holding volumes.old volumes.new }
    ensures which { IfErr result
        (λ e. MayRefuse (Export user.now number encoding) e ⊎ IsFailure e) }
    ensures cause { FromAll V.holding volumes.old volumes.new
        (λ before. IfErr result
        (λ e. HasCauseIn e (Export user.now number encoding) (whole before))) }
    ensures few { OpensFew V.holding volumes.old volumes.new }
{
    let (place, mut depot) = open_with(volumes, user, number)?;
    let result = depot.export(alloc, user, number, encoding, writer);
    volumes.close(place, depot);
    result
}

/// Removes the user's entry with this number, from the volume that has it. The number isn't given again.
///
/// Of n volumes it opens at most as many as the logarithm of n to base 2, rounded up, and 1.
///
/// # Errors
///
/// - `Memory` or `Database` if a volume can't be opened or read.
/// - What [`Depot::remove`] is refused for.
pub fn remove<S: Alter, V: Volumes<S, Depot<S>>>(
    volumes: &mut V,
    user: &str,
    number: u32,
) -> Result<(), Refusal>
    ensures applies { AppliesOnVolumes V.holding volumes.old volumes.new result
        (Remove user.now number) (λ _. Done) }
    ensures few { OpensFew V.holding volumes.old volumes.new }
{
    let (place, mut depot) = open_with(volumes, user, number)?;
    let result = depot.remove(user, number);
    volumes.close(place, depot);
    result
}
