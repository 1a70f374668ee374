ghost use Rattle.std.specs.Prelude.{◌≡◌, ℕ, ℤ, List, Option, Result, Err, Some};
ghost use Rattle.lk_io.specs.declared.files.File.{File};
ghost use Rattle.lk_include.specs.declared.project.ProjectFault.{ProjectFault};
ghost use Rattle.lk_types.specs.declared.schema.Schema.{Schema};
ghost use Rattle.lk_merge.specs.declared.project.Merged.{Merged};
ghost use Rattle.lk_objects.specs.declared.view.Declared.{Declared};
ghost use Rattle.lk_ledger.specs.declared.kept.Kept.{Kept};
ghost use Rattle.lk_edition.specs.Offices.{Begins};
ghost use Rattle.lk_resolve.specs.Loading.{IsLoadOf};
ghost use Rattle.lk_resolve.specs.Objects.{HasObjects};
ghost use Rattle.lk_resolve.specs.declared.loading.Loaded.{Loaded};
ghost use Rattle.lk_serve.specs.Opened.{IsOpened};
ghost use Rattle.lk_serve.specs.Outcomes.{IsReply};
ghost use Rattle.lk_serve.specs.Queries.{IsQueried};
ghost use Rattle.lk_serve.specs.Replies.{usage_reply};
ghost use Rattle.lk_serve.specs.Words.{asked_by, unknown};
ghost use Rattle.lk_serve.specs.declared.replies.Reply.{Reply};
ghost use Rattle.lk_one_reply.specs.Told.{IsTold, SaysOne};

use lk_answer::bodies_are_replied_one_thing;
use lk_ledger::Keeper;
use lk_written::texts_say_one_thing;

/// The effective objects of a project say one thing. A law: it computes nothing.
pub fn objects_say_one_thing()
    ensures { (schema : Schema) (merged : Merged) (d e : Declared) → HasObjects schema merged d → HasObjects schema merged e
        → d ≡ e }
{
    texts_say_one_thing();
}

/// Where the files, the input and the next moment are told, and a store hands over at most one thing, there is one reply to words
/// that ask for one, and what the files are loaded as, want of memory and a failure aside, is one. Wrong words have the usage line
/// whatever is told, and a query over a folder whose project does not open over such a store at some moment has the folder's line
/// whatever is told of the input and the clock. A store that tells what it holds hands over at most that. A law: it computes
/// nothing.
pub fn words_have_one_reply<K: Keeper>(store: &K)
    ensures loads { (files : List File) (r s : Result Loaded ProjectFault) → IsTold r → IsTold s → IsLoadOf files r → IsLoadOf files s
        → r ≡ s }
    ensures replies { SaysOne (Begins (K.held store.now) (K.handed store.now))
        → (words : List (List ℕ)) (files : List File) (input : List ℕ) (now : ℤ) (a b : Reply)
        → IsReply words (Some files) (Begins (K.held store.now) (K.handed store.now)) (Some input) (Some now) a
        → IsReply words (Some files) (Begins (K.held store.now) (K.handed store.now)) (Some input) (Some now) b → a ≡ b }
    ensures usage { (words : List (List ℕ)) (files : Option (List File)) (input : Option (List ℕ)) (now : Option ℤ) (a : Reply)
        → asked_by words ≡ unknown
        → IsReply words files (Begins (K.held store.now) (K.handed store.now)) input now a → a ≡ usage_reply }
    ensures closed { SaysOne (Begins (K.held store.now) (K.handed store.now))
        → (files : List File) (user explore : List ℕ) (input : Option (List ℕ)) (now : Option ℤ) (moment : ℤ) (line a : Reply)
        → IsOpened files (Begins (K.held store.now) (K.handed store.now)) moment (Err line)
        → IsQueried files (Begins (K.held store.now) (K.handed store.now)) user explore input now a → a ≡ line }
    ensures told { (kept : Kept) → K.held store.now ≡ Some kept → SaysOne (Begins (K.held store.now) (K.handed store.now)) }
{
    let _ = store;
    objects_say_one_thing();
    bodies_are_replied_one_thing();
}
