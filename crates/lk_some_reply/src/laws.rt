ghost use Rattle.std.specs.Prelude.{◌≡◌, ℕ, ℤ, Bool, true, List, Option, IfSome};
ghost use Rattle.lk_val.specs.Years.{IsMomentInYears};
ghost use Rattle.lk_io.specs.declared.files.File.{File};
ghost use Rattle.lk_types.specs.declared.answer.Reply.{Reply};
ghost use Rattle.lk_types.specs.declared.schema.Schema.{Schema};
ghost use Rattle.lk_merge.specs.declared.project.Merged.{Merged};
ghost use Rattle.lk_ledger.specs.declared.kept.Kept.{Kept};
ghost use Rattle.lk_written.specs.Codes.{IsCode};
ghost use Rattle.lk_written.specs.ReadFilters.{AreFilters};
ghost use Rattle.lk_resolve.specs.Objects.{HasObjects};
ghost use Rattle.lk_state.specs.States.{State};
ghost use Rattle.lk_http.specs.Items.{IsNext, Item};
ghost use Rattle.lk_http.specs.declared.request.Request.{Request};
ghost use Rattle.lk_session.specs.Recorded.{Recorded, RecordedDoes};
ghost use Rattle.lk_session.specs.Servers.{Server};
ghost use Rattle.lk_serve.specs.Opened.{IsOpened};
ghost use Rattle.lk_serve.specs.Outcomes.{IsReply};
ghost use Rattle.lk_serve.specs.Words.{asked_by, is_one};
ghost use Rattle.lk_complete_laws.specs.Holding.{HoldsOfSome};
ghost use Rattle.lk_some_reply.specs.Loads.{IsHanded, IsLoadTold};
ghost use Rattle.lk_some_reply.specs.Requests.{HasMoment, IsServed};
ghost use Rattle.lk_some_reply.specs.Sessions.{HasMoments, IsWholeRun, ToldDoes};

use lk_complete_laws::{
    bodies_bind_or_are_refused, texts_are_expressions_or_refused, texts_are_filters_or_refused,
};

/// The text of a parameter's code says something, and so do the texts of filters. A law: it computes nothing.
pub fn parameters_say_something()
    ensures codes { (over_measures : Bool) (text : Option (List ℕ)) → HoldsOfSome (IsCode over_measures text) }
    ensures filters { (pairs : List (List ℕ × List ℕ)) → HoldsOfSome (AreFilters pairs) }
{
    texts_are_expressions_or_refused();
    texts_are_filters_or_refused();
}

/// The effective objects of a project say something. A law: it computes nothing.
pub fn objects_say_something()
    ensures { (schema : Schema) (merged : Merged) → HoldsOfSome (HasObjects schema merged) }
{
    parameters_say_something();
}

/// Whatever files a folder has, they are loaded as a model with users or have a first fault. A law: it computes nothing.
pub fn files_load_as_something()
    ensures { (files : List File) → HoldsOfSome (IsLoadTold files) }
{
    objects_say_something();
}

/// The bytes of a connection have a next item. A law: it computes nothing.
pub fn bytes_have_a_next_item()
    ensures { (bytes : List ℕ) → HoldsOfSome (IsNext bytes) }
{}

/// What a folder's files are loaded as opens at each moment over what a store hands over, whatever that is, or has a line. A law: it
/// computes nothing.
pub fn files_open_as_something()
    ensures { (files : List File) (kept : Kept) (now : ℤ) → HoldsOfSome (IsOpened files (IsHanded kept) now) }
{
    files_load_as_something();
}

/// Words over a folder's files, a store, an input and a clock have a reply, unless they ask for a session, as far as files, input and the
/// next moment are told, whatever the store hands over. A moment that is told is of the years 1 to 9999. A law: it computes nothing.
pub fn words_have_some_reply()
    ensures { (words : List (List ℕ)) (files : Option (List File)) (kept : Kept) (input : Option (List ℕ)) (now : Option ℤ)
        → is_one (asked_by words) ≡ true → IfSome now IsMomentInYears → HoldsOfSome (IsReply words files (IsHanded kept) input now) }
{
    files_load_as_something();
    files_open_as_something();
    bodies_bind_or_are_refused();
}

/// A request on a server, whatever states were before its edition's, has a reply and a server behind it, where the next moment, if it is
/// told, is of the years 1 to 9999. Want of memory is no such reply. A law: it computes nothing.
pub fn requests_are_served()
    ensures { (past : List State) (s : Server) (request : Request) → HasMoment s.moments → HoldsOfSome (IsServed past s request) }
{
    bodies_bind_or_are_refused();
}

/// The bytes of a connection have a whole session on a server, in which no request is forgotten for want of memory, where the moments
/// that are told are of the years 1 to 9999. What is done in it is what a server with its history does. A law: it computes nothing.
pub fn sessions_run_to_an_end()
    ensures does { (h h' : Recorded) (item : Item) (reply : Reply) → ToldDoes h item reply h' → RecordedDoes h item reply h' }
    ensures runs { (h : Recorded) (bytes : List ℕ) → HasMoments h.server.moments → HoldsOfSome (IsWholeRun h bytes) }
{
    bytes_have_a_next_item();
    requests_are_served();
}
