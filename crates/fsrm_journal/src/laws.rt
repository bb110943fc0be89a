//! What the definitions of the journal say together.

ghost use Rattle.std.specs.Prelude.{◌≡◌, ◌⊎◌, ◌≤◌, ◌+◌, ℕ, List, [], ◌∷◌, ◌++◌, All, Ok, Some, None, length};
ghost use Rattle.fsrm_model.specs.values.Limits.{longest_entry};
ghost use Rattle.fsrm_outside.specs.Parts.{Parts, part_of, other};
ghost use Rattle.fsrm_journal.specs.Next.{record_at};
ghost use Rattle.fsrm_journal.specs.Halves.{Certain, Filling, Fresh, Knows, Stays};
ghost use Rattle.fsrm_journal.specs.Opened.{judged_parts, IsOpened, ReadsOn, StandsOn};
ghost use Rattle.fsrm_journal.specs.Reading.{IsBody, Comes, GoesOn, Read};
ghost use Rattle.fsrm_outside.specs.Settling.{Stable};
ghost use Rattle.fsrm_journal.specs.Sight.{Sees};
ghost use Rattle.fsrm_journal.specs.Stores.{Changing, HoldsStore, ReadUpTo, SameStore, Stands, StandsAt};
ghost use Rattle.fsrm_outside.specs.Kept.{KeepsDisk};
ghost use Rattle.fsrm_outside.specs.Moments.{EachNow};
ghost use Rattle.fsrm_outside.specs.declared.traits.Part.{Part};
ghost use Rattle.fsrm_journal.specs.declared.heads.Head.{Head};
ghost use Rattle.fsrm_journal.specs.declared.journal.Journal.{Journal};
ghost use Rattle.fsrm_journal.specs.Records.{records, Holds, Log, Settled};

use fsrm_outside::Disk;

/// A reader that begins after the lead comes to each record that the parts hold, in order, and stops after the last
/// one.
pub fn records_are_read()
    ensures each { (log : Log) (before after : List (List ℕ)) (body : List ℕ) (parts : Parts) → Holds log (before ++ body ∷ after) parts
        → 1 ≤ length body → length body ≤ longest_entry
        → record_at (part_of log.ruling parts) (length (log.lead ++ records before)) ≡ Ok (Some (length (log.lead ++ records before) + 5, length body)) }
    ensures last { (log : Log) (bodies : List (List ℕ)) (parts : Parts) → Holds log bodies parts
        → record_at (part_of log.ruling parts) (length (log.lead ++ records bodies)) ≡ Ok None }
{}

/// One list of bytes has one reading: from a place on there stands one list of bodies at most.
pub fn reading_is_one()
    ensures { (half : List ℕ) (place : ℕ) (first second : List (List ℕ)) → Read half place first → Read half place second → first ≡ second }
{}

/// A reader that comes to some bodies then stands after their records. So from the end of an image up to the first closed
/// gate there are as many bytes as the records have.
pub fn records_have_their_bytes()
    ensures { (half : List ℕ) (place : ℕ) (bodies : List (List ℕ)) (end : ℕ) → Comes half place bodies end → end ≡ place + length (records bodies) }
{}

/// Records are added to what was read. A reader came to `before`, and from where it stood on the parts then held no
/// record. Once they hold `bodies` there, a reader comes to all of both.
pub fn records_are_added_to_what_was_read()
    ensures { (log : Log) (place : ℕ) (before bodies : List (List ℕ)) (old parts : Parts) → Holds log [] old → Comes (part_of log.ruling old) place before (length log.lead)
        → Holds log bodies parts → All IsBody bodies → Read (part_of log.ruling parts) place (before ++ bodies) }
{}

/// What the journal knows of the parts, it knows from when it is opened. It stays so while the parts are read, and when
/// records are added, since they stand after the heads.
pub fn what_is_known()
    ensures opened { (parts : Parts) (journal : Journal) (head : Head) → IsOpened parts journal head → Knows parts journal }
    ensures read { (parts : Parts) (before after : Journal) → ReadsOn before after → Knows parts before → Knows parts after }
    ensures added { (log : Log) (bodies more : List (List ℕ)) (old new : Parts) (before after : Journal) → Holds log bodies old → Holds log more new → 48 ≤ length log.lead
        → before.ruling ≡ log.ruling → StandsOn before after → Knows old before → Knows new after }
{}

/// A change to the other half may be given up before it comes to rule. The journal knows what it has to of what a read
/// gives; so once that is synced, another half may be begun. And the half that rules holds the records that it held, up
/// to the same end; so then records may be added.
pub fn a_change_may_be_given_up<D: Disk>()
    ensures known { (half front : List ℕ) (head : Head) (journal : Journal) (disk : D) (parts : Parts) → Filling D.reads D.disk_clock D.images half head front journal disk
        → D.reads disk ≡ Some parts → Knows parts journal }
    ensures settled { (half front : List ℕ) (head : Head) (journal : Journal) (disk synced : D) (log now : Log) (bodies : List (List ℕ)) (old parts : Parts)
        → Filling D.reads D.disk_clock D.images half head front journal disk → Certain D.reads D.disk_clock D.images parts synced → D.reads synced ≡ D.reads disk
        → Holds log bodies old → part_of log.ruling old ≡ half → journal.ruling ≡ log.ruling → journal.end ≡ length (log.lead ++ records bodies)
        → now.ruling ≡ log.ruling → now.lead ≡ log.lead → now.beside ≡ part_of (other log.ruling) parts
        → Settled D.reads D.disk_clock D.images now bodies journal.ruling journal.end synced }
{}

/// Bytes hold one store at most. The half that rules has a whole head.
pub fn bytes_hold_one_store()
    ensures one { (parts : Parts) (ruling also : Part) (head next : Head) (image new : List ℕ) (bodies more : List (List ℕ)) → HoldsStore ruling head image bodies parts → HoldsStore also next new more parts
        → SameStore ruling also head next image new bodies more }
    ensures whole { (parts : Parts) (ruling : Part) → judged_parts parts ≡ Ok ruling → 48 ≤ length (part_of ruling parts) }
    // A new half, and a half that stays.
    ensures fresh { (ruling : Part) (head : Head) (image : List ℕ) (parts : Parts) → Fresh ruling head image parts → HoldsStore ruling head image [] parts }
    ensures stays { (ruling : Part) (head : Head) (image : List ℕ) (bodies : List (List ℕ)) (old parts : Parts) → HoldsStore ruling head image bodies old → Stays ruling (part_of ruling old) parts
        → HoldsStore ruling head image bodies parts }
{}

/// Of two readers that began at one place, one has come on from where the other stands. So where nothing more is to be
/// come to, at a closed gate or at damage, there is one list of bodies that a reader came to.
pub fn readers_agree()
    ensures { (half : List ℕ) (place : ℕ) (first second : List (List ℕ)) (end stop : ℕ) → Comes half place first end → Comes half place second stop
        → GoesOn half first second end stop ⊎ GoesOn half second first stop end }
{}

/// What was read stays so while the disk stays as it was, and so does what stands.
pub fn a_store_stays<D: Disk>()
    // nothing was read, as by a call that failed
    ensures reading { (head : Head) (image : List ℕ) (bodies : List (List ℕ)) (parts : Parts) (before after : Journal) → ReadUpTo head image bodies parts before → ReadsOn before after
        → Sees (part_of before.ruling parts) after → after.end ≡ before.end → ReadUpTo head image bodies parts after }
    // all is read, and a crash leaves what is read
    ensures read { (head : Head) (image : List ℕ) (bodies : List (List ℕ)) (parts : Parts) (journal : Journal) (disk : D) → D.reads disk ≡ Some parts → Stable D.reads D.disk_clock D.images disk
        → StandsAt head image bodies parts journal → Stands D.reads D.disk_clock D.images head image bodies journal disk }
    // each image holds the store, and none is another
    ensures now { (head : Head) (image : List ℕ) (bodies : List (List ℕ)) (journal : Journal) (disk : D) → Stands D.reads D.disk_clock D.images head image bodies journal disk
        → EachNow D.disk_clock D.images (HoldsStore journal.ruling head image bodies) disk }
    // calls of other devices were made
    ensures kept { (head : Head) (image : List ℕ) (bodies : List (List ℕ)) (journal : Journal) (old new : D) → KeepsDisk D.reads D.disk_clock D.images D.disk_faults old new
        → Stands D.reads D.disk_clock D.images head image bodies journal old → Stands D.reads D.disk_clock D.images head image bodies journal new }
    // a change to the other half was given up, and the disk synced
    ensures given_up { (head next : Head) (image front : List ℕ) (bodies : List (List ℕ)) (journal : Journal) (disk synced : D) → Changing D.reads D.disk_clock D.images head image bodies next front journal disk
        → D.reads synced ≡ D.reads disk → Stable D.reads D.disk_clock D.images synced → Stands D.reads D.disk_clock D.images head image bodies journal synced }
{}
