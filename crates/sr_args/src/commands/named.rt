ghost use Rattle.std.specs.Prelude.{◌≡◌, List, ◌∷◌, IfSome, IfNone, IfOk};
ghost use Rattle.sr_args.specs.FormWord.{Word};
ghost use Rattle.sr_args.specs.steps.Gives.{Gives};
ghost use Rattle.sr_args.specs.steps.Named.{key_form, key_of, group_form, group_of, consumer_form, consumer_of};

use crate::CallFault;
use crate::value::copy_word;
use sr_bytes::{Name, Unread};
use std::alloc::{AllocError, Global};

/// A consumer group of the stream at a key.
#[derive(Drop)]
pub(crate) struct GroupNamed {
    pub(crate) key: Name,
    pub(crate) group: Name,
}

/// A consumer of a group.
#[derive(Drop)]
pub(crate) struct ConsumerNamed {
    pub(crate) key: Name,
    pub(crate) group: Name,
    pub(crate) consumer: Name,
}

/// The words of a key, a group and a consumer.
#[derive(Clone, Copy)]
pub(crate) struct ConsumerWords<'a> {
    pub(crate) key: &'a [u8],
    pub(crate) group: &'a [u8],
    pub(crate) consumer: &'a [u8],
}

/// `key`
pub(crate) fn read_key(alloc: Global, mut words: Unread<'_>) -> Result<Name, CallFault>
    ensures { Gives key_form key_of words.entry result }
{
    let Some(key) = words.next() else {
        return Err(CallFault::Syntax);
    };
    if let Some(_) = words.next() {
        return Err(CallFault::Syntax);
    }
    let key = copy_word(alloc, key)?;
    Ok(key)
}

/// `key group`
pub(crate) fn read_group(alloc: Global, mut words: Unread<'_>) -> Result<GroupNamed, CallFault>
    ensures { Gives group_form group_of words.entry result }
{
    let Some(key) = words.next() else {
        return Err(CallFault::Syntax);
    };
    let Some(group) = words.next() else {
        return Err(CallFault::Syntax);
    };
    if let Some(_) = words.next() {
        return Err(CallFault::Syntax);
    }
    let key = copy_word(alloc, key)?;
    let group = copy_word(alloc, group)?;
    Ok(GroupNamed { key, group })
}

/// `key group consumer`
pub(crate) fn read_consumer(
    alloc: Global,
    mut words: Unread<'_>,
) -> Result<ConsumerNamed, CallFault>
    ensures { Gives consumer_form consumer_of words.entry result }
{
    let Some(read) = consumer_words(&mut words) else {
        return Err(CallFault::Syntax);
    };
    if let Some(_) = words.next() {
        return Err(CallFault::Syntax);
    }
    let named = copy_consumer(alloc, read)?;
    Ok(named)
}

/// The next three words.
pub(crate) fn consumer_words<'a>(words: &mut Unread<'a>) -> Option<ConsumerWords<'a>>
    ensures found { IfSome result (λ read.
        words.old ≡ read.key.now ∷ read.group.now ∷ read.consumer.now ∷ words.new) }
    ensures none { IfNone result ((key group consumer : Word) (rest : List Word) →
        words.old ≡ key ∷ group ∷ consumer ∷ rest → ⊥) }
{
    let key = words.next()?;
    let group = words.next()?;
    let consumer = words.next()?;
    Some(ConsumerWords {
        key,
        group,
        consumer,
    })
}

/// Copies of the three words.
pub(crate) fn copy_consumer(
    alloc: Global,
    words: ConsumerWords<'_>,
) -> Result<ConsumerNamed, AllocError>
    ensures key { IfOk result (λ named. named.key ≡ words.entry.key.now) }
    ensures group { IfOk result (λ named. named.group ≡ words.entry.group.now) }
    ensures consumer { IfOk result (λ named. named.consumer ≡ words.entry.consumer.now) }
{
    let key = copy_word(alloc, words.key)?;
    let group = copy_word(alloc, words.group)?;
    let consumer = copy_word(alloc, words.consumer)?;
    Ok(ConsumerNamed {
        key,
        group,
        consumer,
    })
}
