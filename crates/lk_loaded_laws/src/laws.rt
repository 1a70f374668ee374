// Laws of what `load` gives. Each is a function that computes nothing: its clauses are the law.

ghost use Rattle.std.specs.Prelude.{◌≡◌, List, Ok, true};
ghost use Rattle.std.specs.List.{AllByRecursion};
ghost use Rattle.lk_io.specs.declared.files.File.{File};
ghost use Rattle.lk_include.specs.Gathering.{gathered};
ghost use Rattle.lk_include.specs.Reading.{AreRead};
ghost use Rattle.lk_include.specs.declared.project.Project.{Project};
ghost use Rattle.lk_merge.specs.Merging.{merged_of};
ghost use Rattle.lk_resolve.specs.Loading.{IsLoadOf, IsLoaded};
ghost use Rattle.lk_resolve.specs.declared.loading.Loaded.{Loaded};
ghost use Rattle.lk_semantics.specs.Resolved.{IsResolved};
ghost use Rattle.lk_model_laws.specs.Spelled.{are_spelled, is_spelled};

/// The trees of a project that files gather to are as texts spell them: code stands where a parameter's name wants it, and titles
/// are names. A law: it computes nothing. (lookd)
pub fn texts_are_spelled()
    ensures { (files : List File) (p : Project) → gathered files ≡ Ok p → AllByRecursion (λ file. is_spelled file.1 ≡ true) p.trees }
{}

/// The effective objects of such a project are so too, their names are names, and two joins of an explore have two names. A law:
/// it computes nothing. (Looker, LookML reference: extends, refinements)
pub fn objects_are_spelled()
    ensures { (p : Project) → AllByRecursion (λ file. is_spelled file.1 ≡ true) p.trees → are_spelled (merged_of p) ≡ true }
{}

/// The model of a project whose trees are those of texts is resolved. `load` promises such a project of any files. A law: it
/// computes nothing. (lookd)
pub fn read_models_are_resolved()
    ensures { (p : Project) (loaded : Loaded) → AreRead p.trees → IsLoaded p (Ok loaded) → IsResolved loaded.model }
{}

/// The model of a folder's files is resolved. A law: it computes nothing. (lookd)
pub fn loaded_models_are_resolved()
    ensures { (files : List File) (loaded : Loaded) → IsLoadOf files (Ok loaded) → IsResolved loaded.model }
{}
