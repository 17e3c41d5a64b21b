ghost use Rattle.std.specs.Prelude.{◌≡◌, false, option_map, IfErr};
ghost use Rattle.std.specs.Result.{IsErrOf};
ghost use Rattle.sr_start.specs.Fault.{is_of_session};
ghost use Rattle.sr_start.specs.Listening.{Opens};

use crate::fault::Fault;
use crate::load::load_policy;
use crate::text_files::TextFiles;
use sr_book::Book;
use std::hash::RandomState;
use std::random::RandomSource;

/// Makes the book that the program starts with: an empty one, under the policy of the file at a path or under none.
pub(crate) fn open_book<R, F>(rt: &R, files: &mut F, policy: Option<&str>) -> Result<Book, Fault>
where
    R: AllocGlobal + RandomSource,
    F: TextFiles,
    ensures book { Opens (F.may_hold files.old) (option_map (λ path. path.now) policy.entry) result }
    ensures before { IfErr result (λ fault. is_of_session fault ≡ false) }
    ensures random { IsErrOf result Fault.NoRandomSource → files.new ≡ files.old }
{
    let Ok(hasher) = RandomState::new(rt) else {
        return Err(Fault::NoRandomSource);
    };
    match load_policy(rt.alloc(), files, policy) {
        Ok(policy) => Ok(Book::new(rt.alloc(), policy, hasher)),
        Err(fault) => Err(fault),
    }
}
