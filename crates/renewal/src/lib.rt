//! Renewal of a document: a new log, whose reading is that of the old one, as one site's typing of that text, kept in a file of its own.
#![tactic(auto)]

mod file;
mod renewal;
mod typing;

pub use file::renew_into;
pub use renewal::renew;
pub use typing::type_text;

#[cfg(test)]
mod tests {
    use super::*;
    use opid::Site;
    use std::test::Fail;

    #[test]
    fn a_text_is_typed_and_renewed(rt: HostRuntime) -> Result<(), Fail> {
        for text in ["", "a", "aé𝄞\nb"] {
            let old = type_text(rt.alloc(), Site::new(3)?, text)?;
            let new = renew(rt.alloc(), &old, Site::new(5)?)?;
            let typed = old.reading(old.version())?;
            assert!(rt; typed.as_str() == text, "{text}: {}", typed.as_str());
            let read = new.reading(new.version())?;
            assert!(rt; read.as_str() == text, "{text}: {}", read.as_str());
        }
        Ok(())
    }
}
