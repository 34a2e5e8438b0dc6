//! Opening a store, and making one.

ghost use Rattle.std.specs.Prelude.{◌≡◌, ◌≢◌, ◌<◌, ◌≤◌, ℕ, List, [], true, Some};
ghost use Rattle.std.specs.Prelude.{IfOk, IfErr, OnOk, IsErr, IsErrOf};
ghost use Rattle.std.specs.Option.{ForSome};
ghost use Rattle.irl_base.specs.Faults.{HasCause};
ghost use Rattle.irl_offer.specs.Settings.{AreValid};
ghost use Rattle.irl_offer.specs.declared.settings.Asked.{Asked as AskedValue};
ghost use Rattle.irl_offer.specs.declared.settings.Kind.TheVariants.{Crawl};
ghost use Rattle.irl_events.specs.State.{State};
ghost use Rattle.irl_disk.specs.Disk.{Files};
ghost use Rattle.irl_disk.specs.Images.{LeavesSame};
ghost use Rattle.irl_journal.specs.Format.{StandsFor};
ghost use Rattle.irl_head.specs.StoreFiles.{head_file, urls_base};
ghost use Rattle.irl_head.specs.Asking.{Agrees};
ghost use Rattle.irl_head.specs.Opening.{HasHead, KeepsHead, IsNotOursAt, IsKeptOtherwise, IsBadStore, IsUnwanted};
ghost use Rattle.irl_head.specs.declared.open_fault.OpenFault.TheVariants.{Failed as OpenFailed};
ghost use Rattle.irl_yard.specs.Standing.{ArePlainFiles, HasState};
ghost use Rattle.irl_yard.specs.Holding.{HasLiveJournal, HasOneOf};
ghost use Rattle.irl_yard.specs.Making.{RestMade};
ghost use Rattle.irl_yard.specs.Opening.{IsDamageAt, entered_state};
ghost use Rattle.irl_yard.specs.Entering.{AreSynced, AreSyncedWithin, Enters, fault_of_bay};
ghost use Rattle.irl_yard.specs.Entering.{OpensYard, OpeningRefused, EntersStore};

use crate::parts::{Parts, Rest};
use crate::yard::Yard;
use irl_bay::Bay;
use irl_disk::{Failed, Store};
use irl_head::{
    CRAWL, OpenFault, PAIRS_BASE, URLS_BASE, find_head, first_bad, first_other, has_others,
    head_frame, write_head,
};
use irl_ledger::{History, Ledger};
use irl_offer::{Asked, Fault, Kind, Settings};
use std::alloc::Global;

impl<S: Store> Yard<S> {
    /// Opens a store, or makes one where there is none.
    pub fn enter(alloc: Global, store: S, asked: &Asked) -> Result<Yard<S>, (OpenFault, S)>
        ensures opened { IfOk result (λ yard.
            OpensYard asked.now yard.parts (S.told store).files (S.told yard.store)) }
        ensures refused { IfErr result (λ e. OpeningRefused asked.now e.0 (S.told store) (S.told e.1)) }
        ensures entered { IfOk result (λ yard. EntersStore asked.now ⊥ (S.told store) (S.told yard.store)) }
        ensures entered_err { IfErr result (λ e.
            EntersStore asked.now (e.0 ≡ OpenFailed) (S.told store) (S.told e.1)) }
    {
        let mut store = store;
        match open(alloc, &mut store, asked) {
            Ok(parts) => Ok(Yard { store, parts }),
            Err(fault) => Err((fault, store)),
        }
    }
}

// Opens the parts of a store, or makes them.
fn open<S: Store>(alloc: Global, store: &mut S, asked: &Asked) -> Result<Parts, OpenFault>
    ensures opened { IfOk result (λ parts. OpensYard asked.now parts (S.told store.old).files (S.told store.new)) }
    ensures refused { IfErr result (λ fault. OpeningRefused asked.now fault (S.told store.old) (S.told store.new)) }
    ensures entered { EntersStore asked.now (IsErrOf result OpenFailed) (S.told store.old) (S.told store.new) }
{
    match find_head(alloc, store)? {
        Some(settings) => adopt(alloc, store, asked, &settings),
        None => make(alloc, store, asked),
    }
}

// Opens a store with these settings, where it was asked for so.
fn adopt<S: Store>(
    alloc: Global,
    store: &mut S,
    asked: &Asked,
    settings: &Settings,
) -> Result<Parts, OpenFault>
    requires head { ForSome (S.told store.old).files (HasHead settings.now) }
    requires valid { AreValid settings.now }
    requires kept { KeepsHead (S.told store.old).images settings.now }
    ensures opened { IfOk result (λ parts. OpensYard asked.now parts (S.told store.old).files (S.told store.new)) }
    ensures refused { IfErr result (λ fault. OpeningRefused asked.now fault (S.told store.old) (S.told store.new)) }
    ensures entered { EntersStore asked.now (IsErrOf result OpenFailed) (S.told store.old) (S.told store.new) }
{
    if let Some((n, kept, wanted)) = first_other(asked, settings) {
        return Err(OpenFault::OtherSettings(n, kept, wanted));
    }
    adopt_made(alloc, store, settings)
}

// Opens a store with these settings, whoever asks for them, by its kind.
pub(crate) fn adopt_made<S: Store>(
    alloc: Global,
    store: &mut S,
    settings: &Settings,
) -> Result<Parts, OpenFault>
    requires head { ForSome (S.told store.old).files (HasHead settings.now) }
    requires valid { AreValid settings.now }
    requires kept { KeepsHead (S.told store.old).images settings.now }
    ensures opened { (asked : AskedValue) → Agrees asked settings.now →
        IfOk result (λ parts. OpensYard asked parts (S.told store.old).files (S.told store.new)) }
    ensures refused { (asked : AskedValue) → Agrees asked settings.now →
        IfErr result (λ fault. OpeningRefused asked fault (S.told store.old) (S.told store.new)) }
    ensures wanted { IfErr result (λ fault. IsUnwanted fault → ⊥) }
    ensures entered { (asked : AskedValue) → Agrees asked settings.now →
        EntersStore asked (IsErrOf result OpenFailed) (S.told store.old) (S.told store.new) }
{
    match settings.kind {
        Kind::Lines | Kind::Tuples => adopt_plain(alloc, store, settings),
        Kind::Crawl => adopt_crawl(alloc, store, settings),
    }
}

// Opens a store of lines or of tuples with these settings, whoever asks for them.
fn adopt_plain<S: Store>(
    alloc: Global,
    store: &mut S,
    settings: &Settings,
) -> Result<Parts, OpenFault>
    requires kind { settings.now.kind ≢ Crawl }
    requires head { ForSome (S.told store.old).files (HasHead settings.now) }
    requires valid { AreValid settings.now }
    requires kept { KeepsHead (S.told store.old).images settings.now }
    ensures opened { (asked : AskedValue) → Agrees asked settings.now →
        IfOk result (λ parts. OpensYard asked parts (S.told store.old).files (S.told store.new)) }
    ensures refused { (asked : AskedValue) → Agrees asked settings.now →
        IfErr result (λ fault. OpeningRefused asked fault (S.told store.old) (S.told store.new)) }
    ensures wanted { IfErr result (λ fault. IsUnwanted fault → ⊥) }
    ensures entered { (asked : AskedValue) → Agrees asked settings.now →
        EntersStore asked (IsErrOf result OpenFailed) (S.told store.old) (S.told store.new) }
{
    sync_rest(store, settings.buckets)?;
    match Bay::adopt(alloc, store, URLS_BASE, settings) {
        Ok(urls) => Ok(Parts {
            urls,
            rest: Rest::Plain,
            has_failed: false,
        }),
        Err(fault) => Err(bay_fault(fault)),
    }
}

// Opens a store of a crawl with these settings, whoever asks for them: its log, its URLs, and then what the log tells
// of these and of its pairs.
fn adopt_crawl<S: Store>(
    alloc: Global,
    store: &mut S,
    settings: &Settings,
) -> Result<Parts, OpenFault>
    requires kind { settings.now.kind ≡ Crawl }
    requires head { ForSome (S.told store.old).files (HasHead settings.now) }
    requires valid { AreValid settings.now }
    requires kept { KeepsHead (S.told store.old).images settings.now }
    ensures opened { (asked : AskedValue) → Agrees asked settings.now →
        IfOk result (λ parts. OpensYard asked parts (S.told store.old).files (S.told store.new)) }
    ensures refused { (asked : AskedValue) → Agrees asked settings.now →
        IfErr result (λ fault. OpeningRefused asked fault (S.told store.old) (S.told store.new)) }
    ensures wanted { IfErr result (λ fault. IsUnwanted fault → ⊥) }
    ensures entered { (asked : AskedValue) → Agrees asked settings.now →
        EntersStore asked (IsErrOf result OpenFailed) (S.told store.old) (S.told store.new) }
{
    let (log, history) = match History::read(alloc, store, settings) {
        Ok(read) => read,
        Err(fault) => return Err(bay_fault(fault)),
    };
    let urls = match Bay::adopt(alloc, store, URLS_BASE, settings) {
        Ok(urls) => urls,
        Err(fault) => return Err(bay_fault(fault)),
    };
    match Ledger::open(alloc, store, settings, &urls, log, history) {
        Ok(ledger) => Ok(Parts {
            urls,
            rest: Rest::Crawl(ledger),
            has_failed: false,
        }),
        Err(fault) => Err(bay_fault(fault)),
    }
}

// What a bay, the log or the ledger was refused with.
fn bay_fault(fault: Fault) -> OpenFault
    requires not_full { (n : ℕ) → fault ≡ Fault.Full n → ⊥ }
    ensures { result ≡ fault_of_bay fault }
{
    match fault {
        Fault::Failed => OpenFault::Failed,
        Fault::Memory => OpenFault::Memory,
        Fault::Full(_) => OpenFault::Failed,
        Fault::Damaged(f, at) => OpenFault::Damaged(f, at),
    }
}

// Makes a store: what it has beside its URLs, the bay of these, and at last the head.
fn make<S: Store>(alloc: Global, store: &mut S, asked: &Asked) -> Result<Parts, OpenFault>
    requires blank { ForSome (S.told store.old).files (λ files. StandsFor (files head_file) []) }
    ensures opened { IfOk result (λ parts. OpensYard asked.now parts (S.told store.old).files (S.told store.new)) }
    ensures refused { IfErr result (λ fault. OpeningRefused asked.now fault (S.told store.old) (S.told store.new)) }
    ensures entered { EntersStore asked.now (IsErrOf result OpenFailed) (S.told store.old) (S.told store.new) }
{
    if has_others(store)? {
        return Err(OpenFault::NotOurs(0));
    }
    let settings = Settings::of_new_store(asked);
    if let Some(n) = first_bad(&settings) {
        return Err(OpenFault::BadSettings(n));
    }
    let mut frame = head_frame(alloc, &settings)?;
    let rest = make_rest(alloc, store, &settings)?;
    let urls = match Bay::make(alloc, store, URLS_BASE, &settings) {
        Ok(urls) => urls,
        Err(fault) => return Err(bay_fault(fault)),
    };
    write_head(alloc, store, &mut frame)?;
    Ok(Parts {
        urls,
        rest,
        has_failed: false,
    })
}

// Makes what a store has beside its bay of URLs, by its kind.
fn make_rest<S: Store>(alloc: Global, store: &mut S, settings: &Settings) -> Result<Rest, OpenFault>
    requires valid { AreValid settings.now }
    requires unmade { ForSome (S.told store.old).files (ArePlainFiles settings.now.buckets) }
    ensures { RestMade result settings.now (S.told store.old) (S.told store.new) }
{
    match settings.kind {
        Kind::Lines | Kind::Tuples => {
            sync_rest(store, settings.buckets)?;
            Ok(Rest::Plain)
        }
        Kind::Crawl => match Ledger::make(alloc, store, settings) {
            Ok(ledger) => Ok(Rest::Crawl(ledger)),
            Err(fault) => Err(bay_fault(fault)),
        },
    }
}

// Syncs the files that a store of lines or tuples lacks, so that a stop leaves of them what is told.
fn sync_rest<S: Store>(store: &mut S, buckets: u32) -> Result<(), Failed>
    requires { buckets ≤ 64 }
    ensures synced { OnOk result (ForSome (S.told store.old).files (λ files.
        AreSynced (S.told store.new).images buckets files)) }
    ensures same { (S.told store.new).files ≡ (S.told store.old).files }
    ensures stops { LeavesSame (S.told store.old) (S.told store.new) }
    ensures taken { (S.told store.new).taken ≡ (S.told store.old).taken }
    ensures cause { HasCause (IsErr result) (S.told store.old).faults (S.told store.new).faults }
{
    store.sync(CRAWL)?;
    sync_files(store, PAIRS_BASE, PAIRS_BASE + 10 + 2 * buckets as u16)?;
    sync_files(
        store,
        PAIRS_BASE + 500,
        PAIRS_BASE + 500 + 2 * buckets as u16,
    )
}

// Syncs the files from one on and below another.
fn sync_files<S: Store>(store: &mut S, from: u16, end: u16) -> Result<(), Failed>
    requires { end ≤ 10000 }
    ensures synced { OnOk result (ForSome (S.told store.old).files (λ files.
        AreSyncedWithin (S.told store.new).images from end files)) }
    ensures same { (S.told store.new).files ≡ (S.told store.old).files }
    ensures stops { LeavesSame (S.told store.old) (S.told store.new) }
    ensures taken { (S.told store.new).taken ≡ (S.told store.old).taken }
    ensures cause { HasCause (IsErr result) (S.told store.old).faults (S.told store.new).faults }
{
    for f in from..end {
        store.sync(f)?;
    }
    Ok(())
}

/// Entering a store whose told files stand for a state leaves files that stand for it, or for the new store's state where it
/// wasn't made yet; so it does of each image of that state. The live journal of each bucket of URLs keeps its records.
pub fn what_entering_keeps()
    ensures state { (asked : AskedValue) (told old new : Files) (state : State) →
        HasState state told → HasState state old → Enters asked (Some told) old new →
        HasOneOf state (entered_state asked state) new }
    ensures records { (asked : AskedValue) (told old new : Files) (state : State) (buckets b : ℕ)
        (payloads : List (List ℕ)) → HasState state told → HasState state old → Enters asked (Some told) old new →
        b < 64 → HasLiveJournal urls_base buckets b payloads old → HasLiveJournal urls_base buckets b payloads new }
{}

/// No two kinds of refusal have their grounds in the same files.
pub fn no_two_grounds()
    ensures ours_or_damaged { (asked : AskedValue) (files : Files) (at f place : ℕ) → IsNotOursAt files at →
        IsDamageAt asked files f place → ⊥ }
    ensures ours_or_other { (asked : AskedValue) (files : Files) (at n kept wanted : ℕ) → IsNotOursAt files at →
        IsKeptOtherwise asked files n kept wanted → ⊥ }
    ensures ours_or_bad { (asked : AskedValue) (files : Files) (at n : ℕ) → IsNotOursAt files at →
        IsBadStore asked files n → ⊥ }
    ensures other_or_damaged { (asked : AskedValue) (files : Files) (n kept wanted f place : ℕ) →
        IsKeptOtherwise asked files n kept wanted → IsDamageAt asked files f place → ⊥ }
    ensures bad_or_damaged { (asked : AskedValue) (files : Files) (n f place : ℕ) → IsBadStore asked files n →
        IsDamageAt asked files f place → ⊥ }
    ensures other_or_bad { (asked : AskedValue) (files : Files) (n kept wanted m : ℕ) →
        IsKeptOtherwise asked files n kept wanted → IsBadStore asked files m → ⊥ }
{}
