use lk_io::{FileFault, Files, FolderFiles};
use lk_val::{Bytes, Text};
use std::alloc::Global;
use std::rt::Files as _;
use std::test::Fail;
use std::{env, fs, process};

// A new folder of this name for temporary files, with a subfolder `views`.
fn made_folder(rt: &HostRuntime, name: &str) -> Result<Text, Fail> {
    let above = env::temp_dir(rt)?;
    let id = process::id(rt.process());
    let folder = format!(in rt.alloc(); "{}/lk_io-{name}-{id}", above.as_str())?;
    let views = format!(in rt.alloc(); "{folder}/views")?;
    fs::create_dir_all(rt, views.as_str())?;
    Ok(Text::from_string(folder))
}

fn path_of(rt: &HostRuntime, folder: &Text, name: &str) -> Result<Text, Fail> {
    let folder = folder.as_str();
    Ok(Text::from_string(format!(in rt.alloc(); "{folder}/{name}")?))
}

// The files of a folder, as they are read.
fn files_in(rt: &HostRuntime, folder: &Text) -> Result<FolderFiles<HostRuntime>, Fail> {
    let folder = folder.copy(rt.alloc()).or(Err("memory"))?;
    Ok(FolderFiles::at(rt.clone()?, folder))
}

fn read_text(
    files: &mut FolderFiles<HostRuntime>,
    alloc: Global,
    name: &str,
) -> Result<Bytes, FileFault> {
    let path = Text::from_str(alloc, name)?;
    files.read(alloc, &path)
}

#[test]
fn lists_and_reads_the_files_below(rt: HostRuntime) -> Result<(), Fail> {
    let folder = made_folder(&rt, "read")?;
    for name in ["views/b", "model", "views/a"] {
        fs::write(&rt, path_of(&rt, &folder, name)?.as_str(), name)?;
    }
    let mut files = files_in(&rt, &folder)?;
    let paths = files.list(rt.alloc())?;
    let wanted = ["model", "views/a", "views/b"];
    assert_eq!(rt; paths.len(), wanted.len());
    for (path, name) in paths.as_slice().iter().zip(wanted) {
        assert_eq!(rt; path.as_str(), name);
    }
    for name in wanted {
        assert_eq!(rt;
            read_text(&mut files, rt.alloc(), name)?.as_slice(),
            name.as_bytes()
        );
    }
    fs::remove_dir_all(&rt, folder.as_str())?;
    Ok(())
}

#[test]
fn follows_no_link_and_reads_nothing_outside(rt: HostRuntime) -> Result<(), Fail> {
    let folder = made_folder(&rt, "links")?;
    fs::write(&rt, path_of(&rt, &folder, "views/a")?.as_str(), "1")?;
    rt.symlink("views/a", path_of(&rt, &folder, "linked")?.as_str())?;
    rt.symlink("views", path_of(&rt, &folder, "more")?.as_str())?;
    let mut files = files_in(&rt, &folder)?;
    assert_eq!(rt; files.list(rt.alloc())?.len(), 1);
    for name in [
        "missing",
        "linked",
        "more/a",
        "views",
        "views/../views/a",
        "/etc/hosts",
        "",
    ] {
        let answer = read_text(&mut files, rt.alloc(), name);
        assert!(rt; matches!(answer, Err(FileFault::Failed)), "at {name}");
    }
    assert_eq!(rt; files.faults(), 7);
    fs::remove_dir_all(&rt, folder.as_str())?;
    Ok(())
}

#[test]
fn a_file_over_the_limit_is_too_big(rt: HostRuntime) -> Result<(), Fail> {
    let folder = made_folder(&rt, "sizes")?;
    let mut files = files_in(&rt, &folder)?;
    let path = Text::from_str(rt.alloc(), "large").or(Err("memory"))?;
    for (size, length) in [(67_108_864, Some(67_108_864)), (67_108_865, None)] {
        let file = fs::create(&rt, path_of(&rt, &folder, "large")?.as_str())?;
        file.set_len(size)?;
        match files.read(rt.alloc(), &path) {
            Ok(body) => assert_eq!(rt; Some(body.len()), length),
            Err(fault) => {
                assert_eq!(rt; fault, FileFault::TooBig);
                assert_eq!(rt; None, length);
            }
        }
    }
    assert_eq!(rt; files.faults(), 0);
    fs::remove_dir_all(&rt, folder.as_str())?;
    Ok(())
}

#[test]
fn a_missing_folder_is_a_fault(rt: HostRuntime) -> Result<(), Fail> {
    let folder = Text::from_str(rt.alloc(), "/no/such/folder").or(Err("memory"))?;
    let mut files = files_in(&rt, &folder)?;
    assert!(rt; matches!(files.list(rt.alloc()), Err(FileFault::Failed)));
    assert_eq!(rt; files.faults(), 1);
    Ok(())
}
