//! The rule of files that are in several targets.

use manifest_rules::codes::SHARED_TARGET_FILE;
use manifest_rules::files::plain_path;
use manifest_rules::found::{
    Declared, FoundFile, LISTED, declared_of, declares, files_of, finds, has_file,
};
use manifest_rules::look::{DeclaredTarget, Kind, Look, text_in};
use manifest_rules::report::{At, File, Out, Part};
use std::alloc::{AllocError, Global};
use std::collections::BTreeMap;

/// The targets that have a file: the path by which it is declared, or that it stands where Cargo finds it.
#[derive(Drop)]
struct Users<'a> {
    /// By the path of the file, the first target that declares it by `path`; `None` where it is found.
    files: BTreeMap<String, Option<&'a DeclaredTarget<'a>>>,
}

impl<'a> Users<'a> {
    /// The files that are found, if there is a package.
    fn found(look: &Look<'_>) -> Result<Users<'a>, AllocError> {
        let mut users = Users {
            files: BTreeMap::new(look.alloc),
        };
        if look.package.is_some() {
            users.find_library(look)?;
            for kind in LISTED {
                users.find(look, kind)?;
            }
        }
        Ok(users)
    }

    /// Notes the files of one kind that are found: each that is not declared, if files of the kind are found, and that of
    /// each declared target that has no path.
    fn find(&mut self, look: &Look<'_>, kind: Kind) -> Result<(), AllocError> {
        let declared = declared_of(look, kind)?;
        let files = files_of(look, kind)?;
        for file in &files {
            if is_used(look, kind, &declared, file) {
                self.add_found(look.alloc, file.path.as_str())?;
            }
        }
        Ok(())
    }

    fn add_found(&mut self, alloc: Global, path: &str) -> Result<(), AllocError> {
        let path = String::from_str(alloc, path)?;
        let _other = self.files.insert(path, None)?;
        Ok(())
    }

    /// Notes the file of the library, where it stands at its place.
    fn find_library(&mut self, look: &Look<'_>) -> Result<(), AllocError> {
        let has_path = look.targets.iter().any(|target| target.kind == Kind::Lib
            && target.table.contains_key("path"));
        let is_meant = declares(look, Kind::Lib) || finds(look, Kind::Lib);
        if is_meant && !has_path && has_file(look, "src", "lib.rs") {
            self.add_found(look.alloc, "src/lib.rs")?;
        }
        Ok(())
    }
}

/// Whether a file that is found is that of a target: of a declared one that has no path, or of its own.
fn is_used(look: &Look<'_>, kind: Kind, declared: &Declared<'_>, file: &FoundFile) -> bool {
    match declared.names.get(file.name.as_str()) {
        Some(target) => !target.table.contains_key("path"),
        None => finds(look, kind) && !declared.has(file),
    }
}

/// No two targets have one file: each that has the file of an earlier one, or of one that is found, is reported.
pub(crate) fn shared_files(look: &Look<'_>, out: &mut Out) -> Result<(), AllocError> {
    let mut users = Users::found(look)?;
    for target in &look.targets {
        let Some(path) = text_in(target.table, "path") else {
            continue;
        };
        let plain = plain_path(look.alloc, path)?;
        let Some(first) = users.files.get(plain.as_str()) else {
            let _none = users.files.insert(plain, Some(target))?;
            continue;
        };
        shared_file(target, *first, path, out);
    }
    Ok(())
}

fn shared_file(
    target: &DeclaredTarget<'_>,
    first: Option<&DeclaredTarget<'_>>,
    path: &str,
    out: &mut Out,
) {
    let rest = [At::Key("path")];
    let words = [
        "file `{}` found to be present in multiple build targets",
        path,
    ];
    out.value(SHARED_TARGET_FILE, target.path.as_slice(), &rest, &words);
    match first {
        Some(first) => {
            let base = first.path.as_slice();
            out.label(File::Own, Part::Value, base, &rest, &["the same file"]);
        }
        None => out.note(&["by where it stands it is the file of another target"]),
    }
}
