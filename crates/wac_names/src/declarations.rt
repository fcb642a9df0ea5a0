//! Names in declarations of types.
//!
//! A type is bound after its parts, so that they can't name it; a resource before its methods, which can.
ghost use Rattle.std.specs.Prelude.{◌≡◌, [], ◌∷◌, OnOk, flat_map, map, option_map};
ghost use Rattle.wac_ast_base.specs.Names.{ident_of};
ghost use Rattle.wac_ast_types.specs.Declarations.{enum_decl_of, field_of, flags_decl_of, item_type_decl_of, method_of, record_decl_of, resource_decl_of, resource_method_of, type_alias_of, type_decl_of, variant_case_of, variant_decl_of};
ghost use Rattle.wac_ast_types.specs.Types.{ty_of};
ghost use Rattle.wac_names.specs.Steps.{Step, alias_steps, case_steps, field_steps, func_steps, item_type_steps, method_steps, payload_steps, record_steps, resource_steps, type_decl_steps, variant_steps};
ghost use Rattle.wac_names.specs.Traced.{Takes};

use crate::finder::Finder;
use crate::names::Kind;
use crate::place::{Denoted, Here, Place};
use crate::types::{aliased, function, parameters, value_type};
use std::alloc::AllocError;
use wac_ast_types::{
    EnumCase, EnumDecl, Field, Flag, FlagsDecl, ItemTypeDecl, Method, RecordDecl, ResourceDecl,
    ResourceMethod, Type, TypeAlias, TypeDecl, VariantCase, VariantDecl,
};

/// Notes a field of the record of a number.
fn field<'a>(
    field: &Field<'a>,
    finder: &mut Finder<'a>,
    here: Here,
    owner: usize,
) -> Result<(), AllocError>
    ensures { OnOk result (Takes finder.old finder.new (field_steps here.level (field_of field.now))) }
{
    finder.declare(&field.id, Kind::Field, Some(owner))?;
    value_type(&field.ty, finder, here)
}

/// Notes the fields of the record of a number.
fn fields<'a>(
    fields: &[Field<'a>],
    finder: &mut Finder<'a>,
    here: Here,
    owner: usize,
) -> Result<(), AllocError>
    ensures { OnOk result (Takes finder.old finder.new
        (flat_map (field_steps here.level) (map field_of fields.now))) }
{
    for one in fields {
        field(one, finder, here, owner)?;
    }
    Ok(())
}

/// Notes a record.
fn record<'a>(
    decl: &RecordDecl<'a>,
    finder: &mut Finder<'a>,
    place: Place,
) -> Result<(), AllocError>
    ensures { OnOk result (Takes finder.old finder.new (record_steps place.here.level (record_decl_of decl.now))) }
{
    let binding = finder.declare(&decl.id, Kind::Record, place.owner)?;
    fields(&decl.fields, finder, place.here, binding)?;
    finder.bind_type(place, &decl.id, Denoted::new(binding, None))
}

/// Notes the names of the type of a case, if it has one.
fn payload<'a>(ty: &Option<Type<'a>>, finder: &mut Finder<'a>, here: Here) -> Result<(), AllocError>
    ensures { OnOk result (Takes finder.old finder.new (payload_steps here.level (option_map ty_of ty.now))) }
{
    match ty {
        Some(ty) => value_type(ty, finder, here),
        None => Ok(()),
    }
}

/// Notes a case of the variant of a number.
fn case<'a>(
    case: &VariantCase<'a>,
    finder: &mut Finder<'a>,
    here: Here,
    owner: usize,
) -> Result<(), AllocError>
    ensures { OnOk result (Takes finder.old finder.new (case_steps here.level (variant_case_of case.now))) }
{
    finder.declare(&case.id, Kind::Case, Some(owner))?;
    payload(&case.ty, finder, here)
}

/// Notes the cases of the variant of a number.
fn cases<'a>(
    cases: &[VariantCase<'a>],
    finder: &mut Finder<'a>,
    here: Here,
    owner: usize,
) -> Result<(), AllocError>
    ensures { OnOk result (Takes finder.old finder.new
        (flat_map (case_steps here.level) (map variant_case_of cases.now))) }
{
    for one in cases {
        case(one, finder, here, owner)?;
    }
    Ok(())
}

/// Notes a variant.
fn variant<'a>(
    decl: &VariantDecl<'a>,
    finder: &mut Finder<'a>,
    place: Place,
) -> Result<(), AllocError>
    ensures { OnOk result (Takes finder.old finder.new (variant_steps place.here.level (variant_decl_of decl.now))) }
{
    let binding = finder.declare(&decl.id, Kind::Variant, place.owner)?;
    cases(&decl.cases, finder, place.here, binding)?;
    finder.bind_type(place, &decl.id, Denoted::new(binding, None))
}

/// Notes the flags of the type of a number.
fn each_flag<'a>(
    finder: &mut Finder<'a>,
    owner: usize,
    flags: &[Flag<'a>],
) -> Result<(), AllocError>
    ensures { OnOk result (finder.new ≡ finder.old) }
{
    for flag in flags {
        finder.declare(&flag.id, Kind::Flag, Some(owner))?;
    }
    Ok(())
}

/// Notes a type of flags.
fn flags<'a>(finder: &mut Finder<'a>, place: Place, decl: &FlagsDecl<'a>) -> Result<(), AllocError>
    ensures { OnOk result (Takes finder.old finder.new (Step.binds place.here.level (ident_of decl.now.id) ∷ [])) }
{
    let binding = finder.declare(&decl.id, Kind::Flags, place.owner)?;
    each_flag(finder, binding, &decl.flags)?;
    finder.bind_type(place, &decl.id, Denoted::new(binding, None))
}

/// Notes the cases of the enum of a number.
fn enum_cases<'a>(
    finder: &mut Finder<'a>,
    owner: usize,
    cases: &[EnumCase<'a>],
) -> Result<(), AllocError>
    ensures { OnOk result (finder.new ≡ finder.old) }
{
    for case in cases {
        finder.declare(&case.id, Kind::Case, Some(owner))?;
    }
    Ok(())
}

/// Notes an enum.
fn enumeration<'a>(
    finder: &mut Finder<'a>,
    place: Place,
    decl: &EnumDecl<'a>,
) -> Result<(), AllocError>
    ensures { OnOk result (Takes finder.old finder.new (Step.binds place.here.level (ident_of decl.now.id) ∷ [])) }
{
    let binding = finder.declare(&decl.id, Kind::Enum, place.owner)?;
    enum_cases(finder, binding, &decl.cases)?;
    finder.bind_type(place, &decl.id, Denoted::new(binding, None))
}

/// Notes an alias.
fn alias<'a>(decl: &TypeAlias<'a>, finder: &mut Finder<'a>, place: Place) -> Result<(), AllocError>
    ensures { OnOk result (Takes finder.old finder.new (alias_steps place.here.level (type_alias_of decl.now))) }
{
    let binding = finder.declare(&decl.id, Kind::Alias, place.owner)?;
    aliased(&decl.kind, finder, place.here, binding)?;
    finder.bind_type(place, &decl.id, Denoted::new(binding, None))
}

/// Notes a method of the resource of a number.
fn method<'a>(
    method: &Method<'a>,
    finder: &mut Finder<'a>,
    here: Here,
    owner: usize,
) -> Result<(), AllocError>
    ensures { OnOk result (Takes finder.old finder.new (func_steps here.level (method_of method.now).ty)) }
{
    let binding = finder.declare(&method.id, Kind::Method, Some(owner))?;
    function(&method.ty, finder, here, binding)
}

/// Notes a constructor or a method of the resource of a number.
fn constructor_or_method<'a>(
    one: &ResourceMethod<'a>,
    finder: &mut Finder<'a>,
    here: Here,
    owner: usize,
) -> Result<(), AllocError>
    ensures { OnOk result (Takes finder.old finder.new (method_steps here.level (resource_method_of one.now))) }
{
    match one {
        ResourceMethod::Constructor(constructor) => {
            parameters(&constructor.params, finder, here, owner)
        }
        ResourceMethod::Method(declared) => method(declared, finder, here, owner),
    }
}

/// Notes the constructors and methods of the resource of a number.
fn methods<'a>(
    methods: &[ResourceMethod<'a>],
    finder: &mut Finder<'a>,
    here: Here,
    owner: usize,
) -> Result<(), AllocError>
    ensures { OnOk result (Takes finder.old finder.new
        (flat_map (method_steps here.level) (map resource_method_of methods.now))) }
{
    for one in methods {
        constructor_or_method(one, finder, here, owner)?;
    }
    Ok(())
}

/// Notes a resource.
fn resource<'a>(
    decl: &ResourceDecl<'a>,
    finder: &mut Finder<'a>,
    place: Place,
) -> Result<(), AllocError>
    ensures { OnOk result (Takes finder.old finder.new
        (resource_steps place.here.level (resource_decl_of decl.now))) }
{
    let binding = finder.declare(&decl.id, Kind::Resource, place.owner)?;
    finder.bind_type(place, &decl.id, Denoted::new(binding, None))?;
    methods(&decl.methods, finder, place.here, binding)
}

/// Notes a type that the document declares.
pub(crate) fn type_decl<'a>(decl: &TypeDecl<'a>, finder: &mut Finder<'a>) -> Result<(), AllocError>
    ensures { OnOk result (Takes finder.old finder.new (type_decl_steps (type_decl_of decl.now))) }
{
    let place = Place::of_statements();
    match decl {
        TypeDecl::Variant(decl) => variant(decl, finder, place),
        TypeDecl::Record(decl) => record(decl, finder, place),
        TypeDecl::Flags(decl) => flags(finder, place, decl),
        TypeDecl::Enum(decl) => enumeration(finder, place, decl),
        TypeDecl::Alias(decl) => alias(decl, finder, place),
    }
}

/// Notes a type that an interface or a world declares.
pub(crate) fn item_type<'a>(
    decl: &ItemTypeDecl<'a>,
    finder: &mut Finder<'a>,
    place: Place,
) -> Result<(), AllocError>
    ensures { OnOk result (Takes finder.old finder.new
        (item_type_steps place.here.level (item_type_decl_of decl.now))) }
{
    match decl {
        ItemTypeDecl::Resource(decl) => resource(decl, finder, place),
        ItemTypeDecl::Variant(decl) => variant(decl, finder, place),
        ItemTypeDecl::Record(decl) => record(decl, finder, place),
        ItemTypeDecl::Flags(decl) => flags(finder, place, decl),
        ItemTypeDecl::Enum(decl) => enumeration(finder, place, decl),
        ItemTypeDecl::Alias(decl) => alias(decl, finder, place),
    }
}
