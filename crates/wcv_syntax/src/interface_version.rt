// Versions of interfaces.
ghost use Rattle.std.specs.Prelude.{◌≡◌, ◌⊎◌, false, true, Ok, IfOk, IfErr};
ghost use Rattle.std.specs.Option.{option_map, option_copied};
ghost use Rattle.semver.specs.Identifiers.{parts_of};
ghost use Rattle.semver.specs.Parse.{version_parts};
ghost use Rattle.wcv_core.specs.Refusal.{error_kind, error_offset};
ghost use Rattle.wcv_core.specs.declared.error.ErrorKind.TheVariants as kind;
ghost use Rattle.wcv_syntax.specs.Versions.{is_version, is_versioned, version_of};

use crate::interface_name::InterfaceName;
use semver::Version;
use std::alloc::{AllocError, Global};
use wcv_core::{Error, ErrorKind, Excerpt, OutOfMemory};

/// The text as a version. Refuses as `Name` a text that is none.
fn parse_version(alloc: Global, text: &str, offset: u64) -> Result<Version, Error>
    ensures ok { IfOk result (λ v. version_parts text.now ≡ Ok (parts_of v)) }
    ensures err { IfErr result (λ e. (error_kind e ≡ kind.OutOfMemory) ⊎ ((error_kind e ≡ kind.Name) × (error_offset e ≡ offset) × (is_version text.now ≡ false))) }
{
    match Version::parse(alloc, text) {
        Ok(version) => Ok(version),
        Err(fault) => {
            if fault == semver::Error::from(AllocError) {
                return Err(Error::from(OutOfMemory));
            }
            let excerpt = Excerpt(text);
            Err(Error::told(
                ErrorKind::Name,
                offset,
                format_args!("`{excerpt}` is not a version as 1.0.0 is: {fault}"),
            ))
        }
    }
}

impl InterfaceName<'_> {
    /// The version in the name, with the rest of it that stands beside the name; none exactly where there
    /// is neither. Refuses as `Name` a rest with no version in the name, and what is no version by SemVer
    /// 2.0.0.
    pub fn version(
        &self,
        alloc: Global,
        suffix: Option<&str>,
        offset: u64,
    ) -> Result<Option<Version>, Error>
        ensures ok { IfOk result (λ o. (is_versioned (option_copied self.now.version) (option_copied suffix.entry) ≡ true) × (option_map parts_of o ≡ version_of (option_copied self.now.version) (option_copied suffix.entry))) }
        ensures err { IfErr result (λ e. (error_kind e ≡ kind.OutOfMemory) ⊎ ((error_kind e ≡ kind.Name) × (error_offset e ≡ offset) × (is_versioned (option_copied self.now.version) (option_copied suffix.entry) ≡ false))) }
    {
        match self.version {
            None => {
                if suffix.is_some() {
                    let excerpt = Excerpt(self.text);
                    return Err(Error::told(
                        ErrorKind::Name,
                        offset,
                        format_args!(
                            "a version suffix stands behind a version, and `{excerpt}` has none"
                        ),
                    ));
                }
                Ok(None)
            }
            Some(version) => match suffix {
                None => Ok(Some(parse_version(alloc, version, offset)?)),
                Some(rest) => {
                    let mut text = String::from_str(alloc, version)?;
                    text.push_str(rest)?;
                    Ok(Some(parse_version(alloc, text.as_str(), offset)?))
                }
            },
        }
    }
}
