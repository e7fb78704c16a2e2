//! What each change does to the counts of every name: laws over the definitions, which the calls' contracts cite.
ghost use Rattle.np_proxy.specs.Counts.{SendsCount, ReleasesCount, AddedCountFromNone, NoExportIsOut, AddsOne, SendsKeepExports, ReleasesKeepExports, DropsNoOther, PurgesAnInstance, PurgesNoOther, AcceptsCount, PurgedDontCount, HoldsCount, DropsCount, LastCounts, OthersStay, PurgeTakesAll, PurgeKeepsOthers, PurgeMarksOne, ClearsCount, HeldHaveHolders};
ghost use Rattle.np_proxy.specs.Sending.{RiseAsMessage, AcceptsCounted, HoldsCounted, DropsCounted, ClearsCounted, PurgesCounted};

/// A count of an export is the sends of its name since it was added, less what was released of it.
pub fn exports_count()
    ensures sends { SendsCount }
    ensures releases { ReleasesCount }
    ensures added { AddedCountFromNone }
{}

/// A name is an export from the call that adds it to the one that drops it or purges its instance, and no call changes whether
/// another name is one.
pub fn exports_are_kept()
    ensures none { NoExportIsOut }
    ensures adds { AddsOne }
    ensures sends { SendsKeepExports }
    ensures releases { ReleasesKeepExports }
    ensures drops { DropsNoOther }
    ensures purge { PurgesAnInstance }
    ensures others { PurgesNoOther }
{}

/// A proxy counts how often its name came and how many references it stands for. After the last went, all that came are pending.
pub fn imports_count()
    ensures accepts { AcceptsCount }
    ensures purged { PurgedDontCount }
    ensures holds { HoldsCount }
    ensures drops { DropsCount }
    ensures last { LastCounts }
    ensures others { OthersStay }
    ensures purge { PurgeTakesAll }
    ensures other_instances { PurgeKeepsOthers }
    ensures marks { PurgeMarksOne }
    ensures clears { ClearsCount }
    ensures names { HeldHaveHolders }
{}

/// The pending releases may stand in a message: they rise, and each gives back references of an object.
pub fn releases_rise()
    ensures law { RiseAsMessage }
{}

/// Where all names that are accepted are counted from 1, so are those of the proxies and of the pending releases.
/// `Imports::releases` says that a message may then carry these.
pub fn counted_names_stay()
    ensures accepts { AcceptsCounted }
    ensures holds { HoldsCounted }
    ensures drops { DropsCounted }
    ensures clears { ClearsCounted }
    ensures purges { PurgesCounted }
{}
