//! Components, from their names and modifiers.

ghost use Rattle.std.specs.Prelude.{◌≡◌, IfOk};
ghost use Rattle.description_lexer.specs.Answer.{Answers};
ghost use Rattle.description_items.specs.Modern.{modern};
ghost use Rattle.description_lexer.specs.Views.{rest_of, modifier, modifiers};
ghost use Rattle.description_tables.specs.Component.{key_in, with_modifier, with_modifiers, combined, named, component_of};
ghost use Rattle.description_tables.specs.Chosen.{nothing};

use crate::chosen::{Chosen, is_carried, is_chosen, nothing, with_value};
use crate::keys::{Key, has_key, key_of};
use crate::made::made;
use crate::names::{Name, name_of, name_text};
use description_items::Component;
use description_lexer::{DescriptionVersion, InvalidFormatDescription, Modifier, Rest};

// The key that a word names, if the component has it.
fn key_in<'a>(
    version: DescriptionVersion,
    name: Name,
    word: Rest<'a>,
) -> Result<Key, InvalidFormatDescription<'a>>
    ensures { Answers (λ k. k) result (key_in version name (rest_of word.entry)) }
{
    match key_of(version, word.text) {
        Some(key) if has_key(name, key) => Ok(key),
        _ => Err(InvalidFormatDescription::InvalidModifier {
            value: word.text,
            index: word.index,
        }),
    }
}

// The chosen values with one modifier more, or what is wrong with it.
#[tactic(auto, unfolding(crate::specs::Component::with_modifier))]
fn with_modifier<'a>(
    version: DescriptionVersion,
    name: Name,
    chosen: Chosen,
    one: Modifier<'a>,
) -> Result<Chosen, InvalidFormatDescription<'a>>
    ensures { Answers (λ c. c) result (with_modifier version name chosen (modifier one.entry)) }
{
    let key = key_in(version, name, one.key)?;
    if version.is_three() && is_chosen(chosen, key) {
        return Err(InvalidFormatDescription::DuplicateModifier {
            name: one.key.text,
            index: one.key.index,
        });
    }
    match with_value(version, name, chosen, key, one.value.text) {
        Some(chosen) => Ok(chosen),
        None => Err(InvalidFormatDescription::InvalidModifier {
            value: one.value.text,
            index: one.value.index,
        }),
    }
}

// What all modifiers choose, or what is wrong with the first that chooses nothing.
#[tactic(auto, unfolding(crate::specs::Component::with_modifiers))]
fn with_modifiers<'a>(
    version: DescriptionVersion,
    name: Name,
    all: &[Modifier<'a>],
) -> Result<Chosen, InvalidFormatDescription<'a>>
    ensures { Answers (λ c. c) result (with_modifiers version name nothing (modifiers all.now)) }
{
    let mut chosen = nothing();
    for one in all {
        chosen = with_modifier(version, name, chosen, *one)?;
    }
    Ok(chosen)
}

// In version 3 each modifier has to say something of the component.
#[tactic(auto, unfolding(crate::specs::Component::combined))]
fn combined<'a>(
    version: DescriptionVersion,
    name: Name,
    chosen: Chosen,
    all: &[Modifier<'a>],
) -> Result<Chosen, InvalidFormatDescription<'a>>
    ensures { Answers (λ c. c) result (combined version name chosen (modifiers all.now)) }
{
    for one in all {
        let key = key_in(version, name, one.key)?;
        if version.is_three() && !is_carried(name, chosen, key) {
            return Err(InvalidFormatDescription::InvalidModifierCombination {
                modifier: one.key.text,
                context: name_text(name),
                index: one.key.index,
            });
        }
    }
    Ok(chosen)
}

// The name of a component, or what is wrong where there is none by that word.
#[tactic(auto, unfolding(crate::specs::Component::named))]
fn named<'a>(
    version: DescriptionVersion,
    word: Rest<'a>,
) -> Result<Name, InvalidFormatDescription<'a>>
    ensures { Answers (λ n. n) result (named version (rest_of word.entry)) }
{
    match name_of(version, word.text) {
        Some(name) => Ok(name),
        None => Err(InvalidFormatDescription::InvalidComponentName {
            name: word.text,
            index: word.index,
        }),
    }
}

/// The component that a name and its modifiers mean, or the first thing wrong with them: the name,
/// then each modifier in turn, then modifiers that say nothing, then what is lacking.
#[tactic(auto, unfolding(crate::specs::Component::component_of))]
pub fn component_of<'a>(
    version: DescriptionVersion,
    word: Rest<'a>,
    all: &[Modifier<'a>],
) -> Result<Component, InvalidFormatDescription<'a>>
    ensures value { Answers (λ c. c) result
        (component_of version (rest_of word.entry) (modifiers all.now)) }
    // The older forms have no name of their own.
    ensures modern { IfOk result (λ component. modern component ≡ component) }
{
    let name = named(version, word)?;
    let chosen = with_modifiers(version, name, all)?;
    let chosen = combined(version, name, chosen, all)?;
    match made(version, name, chosen) {
        Some(component) => Ok(component),
        None => Err(InvalidFormatDescription::MissingRequiredModifier {
            name: "count",
            index: word.index,
        }),
    }
}
