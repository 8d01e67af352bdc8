// What a look-up by name finds.
ghost use Rattle.vg_syntax.specs.Classes.{class_named};
ghost use Rattle.vg_source.specs.Declared.{component_named, device_named};
ghost use Rattle.vg_types_names.specs.Lookups.{Agrees, class_parts, component_parts, device_parts};

/// Where the names of declarations differ, the map of declarations finds each class, component and device.
pub fn map_agrees()
    ensures class { Agrees class_named class_parts }
    ensures component { Agrees component_named component_parts }
    ensures device { Agrees device_named device_parts }
{}
